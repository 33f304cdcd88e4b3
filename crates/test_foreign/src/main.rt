// Lists the values that the evaluators make from record tables which were made elsewhere. Standard input has for each chart its length (u32,
// little-endian), its bytes, and sixteen f64 for each place from 0 on. The number of objects is printed, and for each place from 1 on its
// five values as bits; of a chart that is not opened the refusal.
#![tactic(auto)]

ghost use Rattle.std.specs.Prelude.{◌≤◌, length};

use print_lines::Header;

// The lines of one chart.
fn answer(out: &mut [u8], chart: &[u8], bytes: &mut [u8], t: &mut [f64], values: &mut [f64])
    requires { (8192 ≤ length t.old) × (2560 ≤ length values.old) }
{
    match print_lines::open(chart, 512) {
        Err(r) => print_lines::show_refusal(out, r),
        Ok(Header { lay, set }) => {
            print_text::read_numbers(16 * lay.n, bytes, t);
            eval_values::fill_values(values, t, chart, lay, set, 1, lay.n);
            print_lines::show_values(out, values, lay.n);
        }
    }
}

// Charts to the end of the input.
fn main() {
    let mut out = io::large_buffer();
    let mut buffer = io::large_buffer();
    let mut bytes = io::large_buffer();
    let mut t = [0.0f64; 8192];
    let mut values = [0.0f64; 2560];
    print_text::each_chart(&mut buffer[..], |chart| {
        answer(
            &mut out[..],
            chart,
            &mut bytes[..],
            &mut t[..],
            &mut values[..],
        )
    });
}
