// Lists the rhythm values of charts with their comparisons. Standard input has for each chart its length (u32, little-endian) and its bytes. Of a
// chart that is opened the number of objects is printed, for each place from 1 on what the reading answers, the rhythm value as bits and how often an
// island was compared, and the largest of these counts; of any other the refusal.
#![tactic(auto)]

ghost use Rattle.std.specs.Prelude.{◌≤◌, length};

use chart_opening::Refusal;
use eval_rhythm::Counted;
use print_lines::Header;

// The line of place j.
fn put_place(out: &mut [u8], at: usize, j: usize, r: Result<Counted, Refusal>) -> usize {
    match r {
        Err(x) => print_lines::put_refusal(out, at, x),
        Ok(c) => print_lines::put_rhythm(out, at, j, c),
    }
}

// The line of the largest count.
fn put_most(out: &mut [u8], at: usize, most: usize) -> usize {
    let word = print_text::put_all(out, at, b"most ");
    let count = print_text::put_decimal(out, word, most as u64);
    print_text::put(out, count, b'\n')
}

// All lines of a chart with its records, written.
fn show_places(out: &mut [u8], chart: &[u8], n: usize, t: &[f64]) {
    let mut end = print_lines::put_count(out, 0, n);
    let mut most: usize = 0;
    for j in 1..n {
        let r = calls_readings::read_rhythm(chart, t, j);
        end = print_text::show_if_full(out, end);
        end = put_place(out, end, j, r);
        most = most.max(r.map_or(0, |c| c.comparisons));
    }
    end = put_most(out, end, most);
    print_text::show(out, end);
}

// The lines of one chart.
fn answer(out: &mut [u8], chart: &[u8], t: &mut [f64])
    requires { 16384 ≤ length t.old }
{
    match print_lines::open(chart, 1024) {
        Err(r) => print_lines::show_refusal(out, r),
        Ok(Header { lay, set }) => {
            osu_records::fill(chart, lay, set, t);
            show_places(out, chart, lay.n, t);
        }
    }
}

// Charts to the end of the input.
fn main() {
    let mut out = io::large_buffer();
    let mut buffer = io::large_buffer();
    let mut t = [0.0f64; 16384];
    print_text::each_chart(
        &mut buffer[..],
        |chart| answer(&mut out[..], chart, &mut t[..]),
    );
}
