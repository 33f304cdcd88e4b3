// Lists the strains of charts. Standard input has for each chart its length (u32, little-endian) and its bytes. Of a chart that is opened the
// number of objects is printed, for each place from 1 on its strains (aim, aim without sliders, speed, flashlight), and the totals; of any
// other the refusal. Values come from the chart's own records.
#![tactic(auto)]

ghost use Rattle.std.specs.Prelude.{◌*◌, ◌≤◌, length};
ghost use Rattle.skills.specs.Chart.{Readable};

use chart_fields::Layout;
use print_lines::Header;
use skills::{Skill, Skills};

// Number j, 0 where there is none.
fn number_at(list: &[f64], j: usize) -> f64 {
    list.get(j).copied().unwrap_or(0.0)
}

// The lines of all places.
fn put_places(
    out: &mut [u8],
    at: usize,
    n: usize,
    aim: &[f64],
    aim_no_sliders: &[f64],
    speed: &[f64],
    flashlight: &[f64],
) -> usize {
    let mut end = at;
    for j in 1..n {
        end = print_text::show_if_full(out, end);
        end = print_text::put_decimal(out, end, j as u64);
        let strains = Skills {
            aim: number_at(aim, j),
            aim_no_sliders: number_at(aim_no_sliders, j),
            speed: number_at(speed, j),
            flashlight: number_at(flashlight, j),
        };
        end = print_lines::put_skills(out, end, strains);
    }
    end
}

// The number of objects and the lines of all places.
fn put_strains(out: &mut [u8], chart: &[u8], lay: Layout, clock: f64, values: &[f64]) -> usize
    requires { (Readable chart.now lay values.now) × (lay.n ≤ 1024) }
{
    let mut aim = [0.0f64; 1024];
    let mut aim_no_sliders = [0.0f64; 1024];
    let mut speed = [0.0f64; 1024];
    let mut flashlight = [0.0f64; 1024];
    skills::strains_into(chart, lay, clock, values, Skill::Aim, &mut aim[..]);
    skills::strains_into(
        chart,
        lay,
        clock,
        values,
        Skill::AimNoSliders,
        &mut aim_no_sliders[..],
    );
    skills::strains_into(chart, lay, clock, values, Skill::Speed, &mut speed[..]);
    skills::strains_into(
        chart,
        lay,
        clock,
        values,
        Skill::Flashlight,
        &mut flashlight[..],
    );
    let count = print_lines::put_count(out, 0, lay.n);
    put_places(
        out,
        count,
        lay.n,
        &aim[..],
        &aim_no_sliders[..],
        &speed[..],
        &flashlight[..],
    )
}

// The totals' line.
fn put_totals(
    out: &mut [u8],
    at: usize,
    chart: &[u8],
    lay: Layout,
    clock: f64,
    values: &[f64],
) -> usize
    requires { Readable chart.now lay values.now }
{
    let mut aim = [0.0f64; 8192];
    let mut aim_no_sliders = [0.0f64; 8192];
    let mut speed = [0.0f64; 8192];
    let mut flashlight = [0.0f64; 8192];
    let totals = skills::totals(
        chart,
        lay,
        clock,
        values,
        &mut aim[..],
        &mut aim_no_sliders[..],
        &mut speed[..],
        &mut flashlight[..],
    );
    print_lines::put_totals(out, at, totals)
}

// All lines of a chart with its values.
fn list(out: &mut [u8], chart: &[u8], lay: Layout, clock: f64, values: &[f64])
    requires { (Readable chart.now lay values.now) × (lay.n ≤ 1024) }
{
    let places = put_strains(out, chart, lay, clock, values);
    let end = put_totals(out, places, chart, lay, clock, values);
    print_text::show(out, end);
}

// The lines of one chart.
fn answer(out: &mut [u8], chart: &[u8], t: &mut [f64], values: &mut [f64])
    requires { (16384 ≤ length t.old) × (5120 ≤ length values.old) }
{
    match print_lines::open(chart, 1024) {
        Err(r) => print_lines::show_refusal(out, r),
        Ok(Header { lay, set }) => {
            print_lines::fill_tables(chart, lay, set, t, values);
            list(out, chart, lay, set.clock_rate, values);
        }
    }
}

// Charts to the end of the input.
fn main() {
    let mut out = io::large_buffer();
    let mut buffer = io::large_buffer();
    let mut t = [0.0f64; 16384];
    let mut values = [0.0f64; 5120];
    print_text::each_chart(&mut buffer[..], |chart| {
        answer(&mut out[..], chart, &mut t[..], &mut values[..])
    });
}
