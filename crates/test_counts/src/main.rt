// Lists the counts of charts. Standard input has for each chart its length (u32, little-endian) and its bytes. Of a chart that is opened the line of
// counts is printed, of any other the refusal. Values come from the chart's own records.
#![tactic(auto)]

ghost use Rattle.std.specs.Prelude.{◌*◌, ◌≤◌, length};
ghost use Rattle.skills.specs.Chart.{Readable};

use chart_fields::Layout;
use print_lines::Header;

// The line of a chart with its values.
fn list(out: &mut [u8], chart: &[u8], lay: Layout, clock: f64, values: &[f64])
    requires { Readable chart.now lay values.now }
{
    let mut aim = [0.0f64; 8192];
    let mut aim_no_sliders = [0.0f64; 8192];
    let mut speed = [0.0f64; 8192];
    let mut flashlight = [0.0f64; 8192];
    let counts = skills_counts::counts(
        chart,
        lay,
        clock,
        values,
        &mut aim[..],
        &mut aim_no_sliders[..],
        &mut speed[..],
        &mut flashlight[..],
    );
    let end = print_lines::put_counts(out, 0, counts);
    print_text::show(out, end);
}

// The lines of one chart.
fn answer(out: &mut [u8], chart: &[u8], t: &mut [f64], values: &mut [f64])
    requires { (16384 ≤ length t.old) × (5120 ≤ length values.old) }
{
    match print_lines::open(chart, 1024) {
        Err(r) => print_lines::show_refusal(out, r),
        Ok(Header { lay, set }) => {
            print_lines::fill_tables(chart, lay, set, t, values);
            list(out, chart, lay, set.clock_rate, values);
        }
    }
}

// Charts to the end of the input.
fn main() {
    let mut out = io::large_buffer();
    let mut buffer = io::large_buffer();
    let mut t = [0.0f64; 16384];
    let mut values = [0.0f64; 5120];
    print_text::each_chart(&mut buffer[..], |chart| {
        answer(&mut out[..], chart, &mut t[..], &mut values[..])
    });
}
