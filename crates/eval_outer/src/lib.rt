// The evaluators' outer entries: each takes the lent slice of records as the Rust does (evaluators/*.rs), copies the records that count
// into a window, and calls the covered evaluator on the window as a part of the table. Record i of the slice is that of place i + 1. There
// is a next record where the slice has one; at any other place past its end stands a record of zeros.
#![tactic(auto)]

ghost use Rattle.std.specs.Prelude.{◌≡◌, ◌+◌, ◌≤◌, ◌<◌, length};
ghost use Rattle.chart_fields.specs.Objects.{Holds};
ghost use Rattle.osu_object.specs.Osu.{Ready};
ghost use Rattle.osu_records.specs.Part.{first_place};
ghost use Rattle.eval_outer.specs.Entries.{aim_on, speed_on, rhythm_on, flashlight_on};
ghost use Rattle.eval_outer.specs.Records.{record_at, window_of, last_of, Shows};

use chart_fields::Layout;
use eval_flashlight::FlashlightEvaluator;
use osu_difficulty_object::OsuDifficultyObject;
use osu_records::Part;

// Record i, or one of zeros past the end.
pub fn nth(rs: &[OsuDifficultyObject], i: usize) -> OsuDifficultyObject
    ensures { result ≡ record_at rs.now i }
{
    if i < rs.len() {
        rs[i]
    } else {
        OsuDifficultyObject {
            start_time: 0.0,
            delta_time: 0.0,
            adjusted_delta_time: 0.0,
            lazy_jump_dist: 0.0,
            min_jump_dist: 0.0,
            min_jump_time: 0.0,
            travel_dist: 0.0,
            travel_time: 0.0,
            lazy_end_x: 0.0,
            lazy_end_y: 0.0,
            lazy_travel_dist: 0.0,
            lazy_travel_time: 0.0,
            angle: 0.0,
            small_circle_bonus: 0.0,
            has_lazy_end: false,
            has_angle: false,
        }
    }
}

// The records that an evaluator at place j sees: from 32 places before to one after.
pub fn window(rs: &[OsuDifficultyObject], j: usize) -> [OsuDifficultyObject; 34]
    ensures { result ≡ window_of rs.now j }
{
    let first = j.saturating_sub(33);
    let mut w = [nth(rs, first); 34];
    for k in (0..34).rev() {
        w[k] = nth(rs, first + k);
    }
    w
}

// Puts the window of place j into a table, as a part of the table of records: 34 rows of 16 numbers. The table is lent, since one that
// is answered is set to 0 by the caller too.
fn put_window(t: &mut [f64], rs: &[OsuDifficultyObject], j: usize)
    requires { 544 ≤ length t.old }
    ensures { Shows t.new rs.now j }
{
    let w = window(rs, j);
    for k in 0..34 {
        osu_records::put_record(t, k, w[k]);
    }
}

// The places of the window of place j that count, of a slice with so many records: j has a next one where the slice has.
fn part_in(j: usize, records: usize) -> Part
    requires { j < 65536 }
    ensures { (result.first ≡ first_place j) × (result.last ≡ last_of j records) × (j ≤ result.last) × (result.last ≤ j + 1) }
{
    let first = osu_records::first_place(j);
    if j < records {
        return Part { first, last: j + 1 };
    }
    Part { first, last: j }
}

// Aim at place j, over a slice of records: evaluators/aim.rs, `evaluate_diff_of`.
pub fn evaluate_aim(
    diff_objects: &[OsuDifficultyObject],
    chart: &[u8],
    lay: Layout,
    j: usize,
    with_slider_travel_dist: bool,
) -> f64
    requires { Holds chart.now lay × (1 ≤ j) × (j < lay.n) }
    ensures { result ≡ aim_on chart.now lay diff_objects.now j with_slider_travel_dist }
{
    let mut t = [0.0f64; 544];
    put_window(&mut t[..], diff_objects, j);
    eval_aim::evaluate_diff_of(
        &t[..],
        part_in(j, j),
        chart,
        lay,
        j,
        with_slider_travel_dist,
    )
}

// Speed at place j, over a slice of records: evaluators/speed.rs, `evaluate_diff_of`.
pub fn evaluate_speed(
    diff_objects: &[OsuDifficultyObject],
    chart: &[u8],
    lay: Layout,
    j: usize,
    hit_window: f64,
    autopilot: bool,
) -> f64
    requires { Holds chart.now lay × (1 ≤ j) × (j < lay.n) }
    ensures { result ≡ speed_on chart.now lay diff_objects.now j hit_window autopilot }
{
    let mut t = [0.0f64; 544];
    put_window(&mut t[..], diff_objects, j);
    let part = part_in(j, diff_objects.len());
    eval_speed::evaluate_diff_of(&t[..], part, chart, lay, j, hit_window, autopilot)
}

// Rhythm at place j, over a slice of records: evaluators/rhythm.rs, `evaluate_diff_of`.
pub fn evaluate_rhythm(
    diff_objects: &[OsuDifficultyObject],
    chart: &[u8],
    lay: Layout,
    j: usize,
    hit_window: f64,
) -> f64
    requires { Holds chart.now lay × (1 ≤ j) × (j < lay.n) }
    ensures { result ≡ rhythm_on chart.now lay diff_objects.now j hit_window }
{
    let mut t = [0.0f64; 544];
    put_window(&mut t[..], diff_objects, j);
    let part = part_in(j, diff_objects.len());
    eval_rhythm::evaluate_diff_of(&t[..], part, chart, lay, j, hit_window)
}

// Flashlight at place j, over a slice of records: evaluators/flashlight.rs, `evaluate_diff_of`.
pub fn evaluate_flashlight(
    diff_objects: &[OsuDifficultyObject],
    chart: &[u8],
    lay: Layout,
    j: usize,
    evaluator: FlashlightEvaluator,
    hidden: bool,
) -> f64
    requires { Ready chart.now lay × (1 ≤ j) × (j < lay.n) }
    ensures { result ≡ flashlight_on evaluator chart.now lay diff_objects.now j hidden }
{
    let mut t = [0.0f64; 544];
    put_window(&mut t[..], diff_objects, j);
    evaluator.evaluate_diff_of(&t[..], part_in(j, j), chart, lay, j, hidden)
}
