// Lists the totals of charts while they are played. Standard input has for each chart its length (u32, little-endian) and its bytes. Of a chart that is
// opened the number of objects is printed, for each m from 0 to that number the totals (aim, aim without sliders, speed, flashlight) reached after m objects,
// and those after half of the objects, worked out by themselves; of any other the refusal. Values come from the chart's own records.
#![tactic(auto)]

ghost use Rattle.std.specs.Prelude.{◌*◌, ◌+◌, ◌≤◌, length};
ghost use Rattle.skills.specs.Chart.{Readable};

use chart_fields::Layout;
use print_lines::Header;
use skills::Skills;

// Number j, 0 where there is none.
fn number_at(list: &[f64], j: usize) -> f64 {
    list.get(j).copied().unwrap_or(0.0)
}

// Entry m of the list.
fn entry_at(list: &[f64], m: usize) -> Skills
    requires { m ≤ 1024 }
{
    let at = 4 * m;
    let aim = number_at(list, at);
    let aim_no_sliders = number_at(list, at + 1);
    let speed = number_at(list, at + 2);
    let flashlight = number_at(list, at + 3);
    Skills {
        aim,
        aim_no_sliders,
        speed,
        flashlight,
    }
}

// The lines of all entries.
fn put_entries(out: &mut [u8], at: usize, n: usize, list: &[f64]) -> usize
    requires { n ≤ 1024 }
{
    let mut end = at;
    for m in 0..n + 1 {
        end = print_text::show_if_full(out, end);
        end = print_text::put_decimal(out, end, m as u64);
        end = print_lines::put_skills(out, end, entry_at(list, m));
    }
    end
}

// The number of objects and the lines of all entries.
fn put_list(out: &mut [u8], chart: &[u8], lay: Layout, clock: f64, values: &[f64]) -> usize
    requires { (Readable chart.now lay values.now) × (lay.n ≤ 1024) }
{
    let mut list = [0.0f64; 4100];
    let mut aim = [0.0f64; 8192];
    let mut aim_no_sliders = [0.0f64; 8192];
    let mut speed = [0.0f64; 8192];
    let mut flashlight = [0.0f64; 8192];
    skills_playing::totals_while_playing(
        chart,
        lay,
        clock,
        values,
        &mut list[..],
        &mut aim[..],
        &mut aim_no_sliders[..],
        &mut speed[..],
        &mut flashlight[..],
    );
    let count = print_lines::put_count(out, 0, lay.n);
    put_entries(out, count, lay.n, &list[..])
}

// The line of the totals after half of the objects.
fn put_half(
    out: &mut [u8],
    at: usize,
    chart: &[u8],
    lay: Layout,
    clock: f64,
    values: &[f64],
) -> usize
    requires { (Readable chart.now lay values.now) × (lay.n ≤ 1024) }
{
    let m = lay.n / 2;
    let mut aim = [0.0f64; 8192];
    let mut aim_no_sliders = [0.0f64; 8192];
    let mut speed = [0.0f64; 8192];
    let mut flashlight = [0.0f64; 8192];
    let totals = skills_playing::totals_to(
        chart,
        lay,
        clock,
        values,
        m,
        &mut aim[..],
        &mut aim_no_sliders[..],
        &mut speed[..],
        &mut flashlight[..],
    );
    let word = print_text::put_all(out, at, b"prefix ");
    let place = print_text::put_decimal(out, word, m as u64);
    print_lines::put_skills(out, place, totals)
}

// All lines of a chart with its values.
fn put_lines(out: &mut [u8], chart: &[u8], lay: Layout, clock: f64, values: &[f64])
    requires { (Readable chart.now lay values.now) × (lay.n ≤ 1024) }
{
    let entries = put_list(out, chart, lay, clock, values);
    let end = put_half(out, entries, chart, lay, clock, values);
    print_text::show(out, end);
}

// The lines of one chart.
fn answer(out: &mut [u8], chart: &[u8], t: &mut [f64], values: &mut [f64])
    requires { (16384 ≤ length t.old) × (5120 ≤ length values.old) }
{
    match print_lines::open(chart, 1024) {
        Err(r) => print_lines::show_refusal(out, r),
        Ok(Header { lay, set }) => {
            print_lines::fill_tables(chart, lay, set, t, values);
            put_lines(out, chart, lay, set.clock_rate, values);
        }
    }
}

// Charts to the end of the input.
fn main() {
    let mut out = io::large_buffer();
    let mut buffer = io::large_buffer();
    let mut t = [0.0f64; 16384];
    let mut values = [0.0f64; 5120];
    print_text::each_chart(&mut buffer[..], |chart| {
        answer(&mut out[..], chart, &mut t[..], &mut values[..])
    });
}
