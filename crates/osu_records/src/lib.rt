// The table of records: sixteen numbers an entry, in one slice; and what an evaluator sees of it and of the base objects.
#![tactic(auto)]

ghost use Rattle.std.specs.Prelude.{◌≡◌, ◌+◌, ◌*◌, ◌-◌, ◌≤◌, ◌<◌, length};
ghost use Rattle.chart_fields.specs.Objects.{Holds};
ghost use Rattle.osu_object.specs.Osu.{Ready, object_of};
ghost use Rattle.osu_difficulty_object.specs.Record.{placed_of};
ghost use Rattle.osu_records.specs.Rows.{record_at, put_record, number_of};
ghost use Rattle.osu_records.specs.Fill.{filled_range, filled};
ghost use Rattle.osu_records.specs.Part.{first_place, last_place, part_at, Within};
ghost use Rattle.osu_records.specs.Sight.{sight_of};

use chart_fields::Layout;
use chart_opening::Settings;
use osu_difficulty_object::{OsuDifficultyObject, Placed};
use osu_object::BaseObject;

// Entry j, whatever it holds: the f32 are rounded, and a flag is any number but zero.
pub fn record_at(t: &[f64], j: usize) -> OsuDifficultyObject
    requires { (j < 65536) × (16 * j + 16 ≤ length t.now) }
    ensures { result ≡ record_at t.now j }
{
    let at = 16 * j;
    OsuDifficultyObject {
        start_time: t[at + 0],
        delta_time: t[at + 1],
        adjusted_delta_time: t[at + 2],
        lazy_jump_dist: t[at + 3],
        min_jump_dist: t[at + 4],
        min_jump_time: t[at + 5],
        travel_dist: t[at + 6],
        travel_time: t[at + 7],
        lazy_end_x: num_whole::f64_to_f32(t[at + 8]),
        lazy_end_y: num_whole::f64_to_f32(t[at + 9]),
        lazy_travel_dist: t[at + 10],
        lazy_travel_time: t[at + 11],
        angle: t[at + 12],
        small_circle_bonus: t[at + 13],
        has_lazy_end: t[at + 14] != 0.0,
        has_angle: t[at + 15] != 0.0,
    }
}

// A flag as a number; by hand, since std has no `From<bool>` for f64.
fn number_of(b: bool) -> f64
    ensures { result ≡ number_of b }
{
    if b { 1.0 } else { 0.0 }
}

// Entry j becomes r; the others keep what they held.
pub fn put_record(t: &mut [f64], j: usize, r: OsuDifficultyObject)
    requires { (j < 65536) × (16 * j + 16 ≤ length t.old) }
    ensures { t.new ≡ put_record t.old j r }
{
    let at = 16 * j;
    t[at + 0] = r.start_time;
    t[at + 1] = r.delta_time;
    t[at + 2] = r.adjusted_delta_time;
    t[at + 3] = r.lazy_jump_dist;
    t[at + 4] = r.min_jump_dist;
    t[at + 5] = r.min_jump_time;
    t[at + 6] = r.travel_dist;
    t[at + 7] = r.travel_time;
    t[at + 8] = num_floats::widen(r.lazy_end_x);
    t[at + 9] = num_floats::widen(r.lazy_end_y);
    t[at + 10] = r.lazy_travel_dist;
    t[at + 11] = r.lazy_travel_time;
    t[at + 12] = r.angle;
    t[at + 13] = r.small_circle_bonus;
    t[at + 14] = number_of(r.has_lazy_end);
    t[at + 15] = number_of(r.has_angle);
}

// The object two places before j; last is the one before j, which serves at place 1.
fn two_before(chart: &[u8], lay: Layout, radius: f64, j: usize, last: Placed) -> Placed
    requires { Ready chart.now lay × (j < lay.n) × (last ≡ placed_of radius (object_of chart.now lay (j - 1))) }
    ensures { result ≡ placed_of radius (object_of chart.now lay (j - 2)) }
{
    if j < 2 {
        return last;
    }
    osu_difficulty_object::placed_at(chart, lay, j - 2, radius)
}

// The records of places from to to - 1. Each object is decoded once, and kept for the next two places.
pub fn fill_range(chart: &[u8], lay: Layout, set: Settings, from: usize, to: usize, t: &mut [f64])
    requires { Ready chart.now lay × (0 < from) × (to ≤ lay.n) × (16 * to ≤ length t.old) }
    ensures { t.new ≡ filled_range chart.now lay set from to t.old }
{
    if to <= from {
        return;
    }
    let radius = set.radius;
    let mut last = osu_difficulty_object::placed_at(chart, lay, from - 1, radius);
    let mut last_last = two_before(chart, lay, radius, from, last);
    for j in from..to {
        let o = osu_difficulty_object::placed_at(chart, lay, j, radius);
        put_record(t, j, OsuDifficultyObject::new(set, j, o, last, last_last));
        last_last = last;
        last = o;
    }
}

// All records of a chart: entries 1 to n - 1.
pub fn fill(chart: &[u8], lay: Layout, set: Settings, t: &mut [f64])
    requires { Ready chart.now lay × (16 * lay.n ≤ length t.old) }
    ensures { t.new ≡ filled chart.now lay set t.old }
{
    fill_range(chart, lay, set, 1, lay.n, t);
}

// A record and its base object.
#[derive(Clone, Copy)]
pub struct Sight {
    pub diff: OsuDifficultyObject,
    pub base: BaseObject,
}

// The places whose records a lent part of the table holds.
#[derive(Clone, Copy)]
pub struct Part {
    pub first: usize,
    pub last: usize,
}

// The first place of the part that the evaluators at place j are lent: 32 places before.
pub fn first_place(j: usize) -> usize
    ensures { result ≡ first_place j }
{
    j.saturating_sub(32).max(1)
}

// Its last place, of n: the place after j, if there is one.
fn last_place(j: usize, n: usize) -> usize
    requires { j < n }
    ensures { result ≡ last_place j n }
{
    (j + 1).min(n - 1)
}

// The part that the evaluators at place j of n are lent: from 32 places before to one after.
pub fn part_of(j: usize, n: usize) -> Part
    requires { j < n }
    ensures { (result.first ≡ first_place j) × (result.last ≡ last_place j n) }
{
    Part {
        first: first_place(j),
        last: last_place(j, n),
    }
}

// The record at place p, from a part of the table, with the base object there.
pub fn sight_at(t: &[f64], part: Part, chart: &[u8], lay: Layout, p: usize) -> Sight
    requires { Holds chart.now lay × (p < lay.n) × Within t.now part p }
    ensures { result ≡ sight_of (part_at t.now part p) (object_of chart.now lay p) }
{
    Sight {
        diff: record_at(t, p - part.first),
        base: osu_object::base_at(chart, lay, p),
    }
}
