// Prints the records of charts. Standard input has for each chart its length (u32, little-endian) and its bytes. Of a chart that is
// opened the number of objects is printed, and for each place from 1 on the fields of its record as bits; of any other the refusal.
#![tactic(auto)]

ghost use Rattle.std.specs.Prelude.{◌*◌, ◌≤◌, length};

use print_lines::Header;

// The number of objects, and the records of a table that has them.
fn show_records(out: &mut [u8], t: &[f64], n: usize)
    requires { (n ≤ 2048) × (16 * n ≤ length t.now) }
{
    let mut end = print_lines::put_count(out, 0, n);
    for j in 1..n {
        end = print_text::show_if_full(out, end);
        end = print_lines::put_record(out, end, j, osu_records::record_at(t, j));
    }
    print_text::show(out, end);
}

// The lines of one chart.
fn answer(out: &mut [u8], chart: &[u8], t: &mut [f64])
    requires { 32768 ≤ length t.old }
{
    match print_lines::open(chart, 2048) {
        Err(r) => print_lines::show_refusal(out, r),
        Ok(Header { lay, set }) => {
            osu_records::fill(chart, lay, set, t);
            show_records(out, t, lay.n);
        }
    }
}

// Charts to the end of the input.
fn main() {
    let mut out = io::large_buffer();
    let mut buffer = io::large_buffer();
    let mut t = [0.0f64; 32768];
    print_text::each_chart(
        &mut buffer[..],
        |chart| answer(&mut out[..], chart, &mut t[..]),
    );
}
