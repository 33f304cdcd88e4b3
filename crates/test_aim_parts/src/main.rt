// Lists aim with its parts for charts. Standard input has for each chart its length (u32, little-endian) and its bytes. Of a chart that is opened the
// number of objects is printed, and for each place from 1 on what the reading answers: aim's value, both velocities, the five bonuses and the rule, and the
// same nine without sliders; of any other chart the refusal.
#![tactic(auto)]

ghost use Rattle.std.specs.Prelude.{◌≤◌, length};

use print_lines::Header;

// The line of place j.
fn put_place(out: &mut [u8], at: usize, chart: &[u8], t: &[f64], j: usize) -> usize {
    match calls_readings::read_aim_parts(chart, t, j) {
        Err(r) => print_lines::put_refusal(out, at, r),
        Ok(d) => {
            let with = d.parts;
            let without = d.parts_no_sliders;
            print_lines::put_aim(out, at, j, d.value, with, d.value_no_sliders, without)
        }
    }
}

// All lines of a chart with its records, written.
fn show_places(out: &mut [u8], chart: &[u8], n: usize, t: &[f64]) {
    let mut end = print_lines::put_count(out, 0, n);
    for j in 1..n {
        end = print_text::show_if_full(out, end);
        end = put_place(out, end, chart, t, j);
    }
    print_text::show(out, end);
}

// The lines of one chart.
fn answer(out: &mut [u8], chart: &[u8], t: &mut [f64])
    requires { 16384 ≤ length t.old }
{
    match print_lines::open(chart, 1024) {
        Err(r) => print_lines::show_refusal(out, r),
        Ok(Header { lay, set }) => {
            osu_records::fill(chart, lay, set, t);
            show_places(out, chart, lay.n, t);
        }
    }
}

// Charts to the end of the input.
fn main() {
    let mut out = io::large_buffer();
    let mut buffer = io::large_buffer();
    let mut t = [0.0f64; 16384];
    print_text::each_chart(
        &mut buffer[..],
        |chart| answer(&mut out[..], chart, &mut t[..]),
    );
}
