// The functions on numbers, the evaluators and the check of a chart under C names, for the benchmarks.
#![tactic(auto)]

ghost use Rattle.std.specs.Prelude.{◌*◌, ◌≤◌, ◌<◌, length};
ghost use Rattle.osu_object.specs.Osu.{Ready};

use chart_fields::Layout;
use chart_opening::{Refusal, Settings};

// log10 of the rules.
#[unsafe(no_mangle)]
pub extern "C" fn rattle_log10(b: f64) -> f64 {
    num_elementary::log10(b)
}

// Two of the rules.
#[unsafe(no_mangle)]
pub extern "C" fn rattle_two(p: f64) -> f64 {
    num_elementary::two(p)
}

// Power of the rules.
#[unsafe(no_mangle)]
pub extern "C" fn rattle_power(b: f64, e: f64) -> f64 {
    num_elementary::power(b, e)
}

// exp of the rules.
#[unsafe(no_mangle)]
pub extern "C" fn rattle_exp(x: f64) -> f64 {
    num_elementary::exp(x)
}

// The root of an f64.
#[unsafe(no_mangle)]
pub extern "C" fn rattle_root64(x: f64) -> f64 {
    num_roots::root(x)
}

// The root of an f32.
#[unsafe(no_mangle)]
pub extern "C" fn rattle_root32(x: f32) -> f32 {
    num_roots::root(x)
}

// Angle of the rules.
#[unsafe(no_mangle)]
pub extern "C" fn rattle_angle(dot: f64, det: f64) -> f64 {
    num_angle::angle(dot, det)
}

// The nearest f32.
#[unsafe(no_mangle)]
pub extern "C" fn rattle_f64_to_f32(x: f64) -> f32 {
    num_whole::f64_to_f32(x)
}

// The whole part.
#[unsafe(no_mangle)]
pub extern "C" fn rattle_trunc(x: f64) -> f64 {
    num_whole::trunc(x)
}

// The largest whole number that is no more than x.
#[unsafe(no_mangle)]
pub extern "C" fn rattle_floor(x: f64) -> f64 {
    num_whole::floor(x)
}

// The smallest whole number that is no less than x.
#[unsafe(no_mangle)]
pub extern "C" fn rattle_ceil(x: f64) -> f64 {
    num_whole::ceil(x)
}

// The whole part as an i32, held to its range.
#[unsafe(no_mangle)]
pub extern "C" fn rattle_to_i32(x: f64) -> i32 {
    num_whole::to_i32(x)
}

// What opening answers for tables of as many entries: 0, or the refusal's number times 2^32 plus its place.
#[unsafe(no_mangle)]
pub extern "C" fn rattle_check(chart: &[u8], entries: usize) -> u64 {
    match chart_opening::check(chart, entries) {
        Ok(()) => 0,
        Err(r) => code(r.number(), r.place()),
    }
}

// A refusal as one number.
fn code(number: usize, place: usize) -> u64 {
    (number % 16) as u64 * 0x1_0000_0000 + (place % 0x1_0000_0000) as u64
}

// One evaluator's value of a place: 0 aim, 1 speed, 2 rhythm, 3 flashlight. The numbers are those of the C interface.
fn value_at(which: usize, t: &[f64], chart: &[u8], lay: Layout, set: Settings, j: usize) -> f64
    requires { Ready chart.now lay × (1 ≤ j) × (j < lay.n) × (16 * lay.n ≤ length t.now) }
{
    match which {
        0 => eval_aim::evaluate_place(t, chart, lay, j, true),
        1 => eval_speed::evaluate_place(t, chart, lay, j, set.hit_window, set.autopilot),
        2 => eval_rhythm::evaluate_place(t, chart, lay, j, set.hit_window),
        _ => {
            let light = eval_flashlight::evaluator_of(set);
            light.evaluate_place(t, chart, lay, j, set.hidden)
        }
    }
}

// The sum of one evaluator's values over all places.
fn sum_values(which: usize, t: &[f64], chart: &[u8], lay: Layout, set: Settings) -> f64
    requires { Ready chart.now lay × (16 * lay.n ≤ length t.now) }
{
    let n = lay.n;
    let mut sum = 0.0;
    for j in 1..n {
        sum += value_at(which, t, chart, lay, set, j);
    }
    sum
}

// The sum of one evaluator over all places of a chart whose records are in the table; 0 where the chart does not open.
#[unsafe(no_mangle)]
pub extern "C" fn rattle_evaluate(which: usize, chart: &[u8], records: &[f64]) -> f64 {
    match chart_opening::check(chart, records.len() / 16) {
        Err(_) => 0.0,
        Ok(()) => {
            let lay = chart_opening::layout_of(chart);
            let set = chart_opening::settings_at(chart, 32);
            sum_values(which, records, chart, lay, set)
        }
    }
}
