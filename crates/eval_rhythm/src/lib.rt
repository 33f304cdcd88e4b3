// The rhythm evaluator: evaluators/rhythm.rs.
#![tactic(auto)]

ghost use Rattle.std.specs.Prelude.{◌≡◌, ◌+◌, ◌*◌, ◌-◌, ◌≤◌, ◌<◌, not, cond, ltb, length};
ghost use Rattle.num_floats.specs.Numbers.{zero64};
ghost use Rattle.osu_difficulty_object.specs.Reading.{tapness_of, window_of};
ghost use Rattle.chart_fields.specs.Objects.{Holds};
ghost use Rattle.osu_object.specs.Osu.{object_of};
ghost use Rattle.osu_records.specs.Rows.{record_at};
ghost use Rattle.osu_records.specs.Part.{Covers, Within, last_place, part_at};
ghost use Rattle.eval_rhythm.specs.Step.{fresh_walk};
ghost use Rattle.eval_rhythm.specs.Rhythm.{run_of, start_of, value_of, cell_at, cells_at, count_before, rhythm_at_place};
ghost use Rattle.eval_rhythm.specs.Comparisons.{comparisons_from, comparisons_at_place};

use chart_fields::Layout;
use island::IslandCount;
use osu_object::OsuObject;
use osu_records::Part;
use step::{Cell, RhythmState};

pub mod island;
pub mod step;

pub const HISTORY_TIME_MAX: f64 = 5000.0;

const HISTORY_OBJECTS_MAX: usize = 32;

const RHYTHM_OVERALL_MULTIPLIER: f64 = 1.0;

// The value, and how often an island was compared with a kept one while its first match was looked for.
#[derive(Clone, Copy)]
pub struct Counted {
    pub value: f64,
    pub comparisons: usize,
}

// The cell of place p, from a part of the record table.
#[tactic(auto, unfolding(crate::specs::Rhythm::cell_of, osu_object::specs::Base::base_of, osu_object::specs::Osu::object_of, osu_records::specs::Rows::record_from))]
fn cell_at(t: &[f64], part: Part, chart: &[u8], lay: Layout, p: usize) -> Cell
    requires { Holds chart.now lay × (p < lay.n) × Within t.now part p }
    ensures { result ≡ cell_at (object_of chart.now lay) (part_at t.now part) p }
{
    let o = OsuObject::new(chart_fields::fields_of(chart, lay, p));
    let at = 16 * (p - part.first);
    Cell {
        start_time: t[at + 0],
        delta_time: t[at + 1],
        slider: o.is_slider(),
        spinner: o.is_spinner(),
    }
}

// How many records before place j count: it is `idx` j - 1.
fn historical_note_count(j: usize) -> usize
    requires { 1 ≤ j }
    ensures { result ≡ count_before j }
{
    (j - 1).min(HISTORY_OBJECTS_MAX)
}

// How many places back the run begins: as far as the history reaches. The cell of place j is here.
fn rhythm_start(
    t: &[f64],
    part: Part,
    chart: &[u8],
    lay: Layout,
    j: usize,
    here: Cell,
    hist: usize,
) -> usize
    requires { Holds chart.now lay × (j < lay.n) × (part.first + hist ≤ j) × (hist ≤ 32) × Within t.now part j
        × (here ≡ cell_at (object_of chart.now lay) (part_at t.now part) j) }
    ensures { (result ≡ start_of (cells_at (object_of chart.now lay) (part_at t.now part) j) hist) × (result ≤ hist - 2) }
{
    let most = hist.saturating_sub(2);
    for r in 0..most {
        let prev = cell_at(t, part, chart, lay, j - (r + 1));
        if !(here.start_time - prev.start_time < HISTORY_TIME_MAX) {
            return r;
        }
    }
    most
}

// The sum over the history, from the furthest record to the one before this, and how often islands were compared.
fn run(
    t: &[f64],
    part: Part,
    chart: &[u8],
    lay: Layout,
    j: usize,
    here: Cell,
    hist: usize,
    from: usize,
    window: f64,
    eps: f64,
) -> (f64, usize)
    requires { Holds chart.now lay × (j < lay.n) × (part.first + hist ≤ j) × (hist ≤ 32) × Within t.now part j
        × (here ≡ cell_at (object_of chart.now lay) (part_at t.now part) j) × (from ≤ hist - 2) }
    ensures { (result.0
        ≡ (run_of (cells_at (object_of chart.now lay) (part_at t.now part) j) hist window eps from (fresh_walk eps)).state.sum)
        × (result.1
        ≡ comparisons_from (cells_at (object_of chart.now lay) (part_at t.now part) j) hist window eps from (fresh_walk eps)) }
{
    if from < 1 {
        return (0.0, 0);
    }
    // "`Vec<IslandCount>` becomes a fixed array of 32 with a count", document 01: no heap. The count is the state's n.
    let mut counts = [IslandCount::new(eps); 32];
    let mut s = RhythmState::new(eps);
    let mut prev = cell_at(t, part, chart, lay, j - (from + 1));
    let mut last = cell_at(t, part, chart, lay, j - (from + 2));
    let mut comparisons: usize = 0;
    for k in (0..from).rev() {
        let curr = cell_at(t, part, chart, lay, j - (k + 1));
        let decay = step::decay(here.start_time, curr.start_time, hist, k + 1);
        let turn = s.turn(&mut counts, curr, prev, last, decay, window, eps);
        comparisons += turn.compared;
        s = turn.state;
        last = prev;
        prev = curr;
    }
    (s.sum, comparisons)
}

// From the sum, and the doubletapness with the next record.
#[tactic(auto, unfolding(crate::specs::Rhythm::value_of))]
fn value(sum: f64, tap: f64) -> f64
    ensures { result ≡ value_of sum tap }
{
    num_roots::root(4.0 + sum * RHYTHM_OVERALL_MULTIPLIER) / 2.0 * (1.0 - tap)
}

// The doubletapness of place j, whose cell is here, with the next record: none where the part doesn't reach it.
fn tap_of(t: &[f64], part: Part, j: usize, here: Cell, hit_window: f64) -> f64
    requires { Covers t.now part j }
    ensures { result ≡ cond (not (ltb j part.last)) zero64
        (tapness_of here.delta_time (part_at t.now part (j + 1)).delta_time (window_of here.spinner hit_window)) }
{
    if part.last <= j {
        return 0.0;
    }
    let next = osu_records::record_at(t, j + 1 - part.first);
    let window = osu_difficulty_object::window_of(here.spinner, hit_window);
    osu_difficulty_object::tapness(here.delta_time, next.delta_time, window)
}

// The value at place j and its comparisons, from a part of the record table.
fn counted_diff_of(
    t: &[f64],
    part: Part,
    chart: &[u8],
    lay: Layout,
    j: usize,
    hit_window: f64,
) -> Counted
    requires { Holds chart.now lay × (j < lay.n) × Covers t.now part j }
    ensures { (result.value ≡ rhythm_at_place (object_of chart.now lay) (part_at t.now part) part.last j hit_window)
        × (result.comparisons ≡ comparisons_at_place (object_of chart.now lay) (part_at t.now part) j hit_window) }
{
    let here = cell_at(t, part, chart, lay, j);
    if here.spinner {
        return Counted {
            value: 0.0,
            comparisons: 0,
        };
    }
    let eps = hit_window * 0.3;
    let hist = historical_note_count(j);
    let from = rhythm_start(t, part, chart, lay, j, here, hist);
    let (sum, comparisons) = run(t, part, chart, lay, j, here, hist, from, hit_window, eps);
    Counted {
        value: value(sum, tap_of(t, part, j, here, hit_window)),
        comparisons,
    }
}

// The value at place j, from a part of the record table.
pub fn evaluate_diff_of(
    t: &[f64],
    part: Part,
    chart: &[u8],
    lay: Layout,
    j: usize,
    hit_window: f64,
) -> f64
    requires { Holds chart.now lay × (j < lay.n) × Covers t.now part j }
    ensures { result ≡ rhythm_at_place (object_of chart.now lay) (part_at t.now part) part.last j hit_window }
{
    counted_diff_of(t, part, chart, lay, j, hit_window).value
}

// The value at place j of a whole table and its comparisons: the evaluator is lent the middle of it.
pub fn evaluate_counted(t: &[f64], chart: &[u8], lay: Layout, j: usize, hit_window: f64) -> Counted
    requires { Holds chart.now lay × (1 ≤ j) × (j < lay.n) × (16 * lay.n ≤ length t.now) }
    ensures { (result.value ≡ rhythm_at_place (object_of chart.now lay) (record_at t.now) (last_place j lay.n) j hit_window)
        × (result.comparisons ≡ comparisons_at_place (object_of chart.now lay) (record_at t.now) j hit_window) }
{
    let part = osu_records::part_of(j, lay.n);
    let middle = &t[16 * part.first..16 * (part.last + 1)];
    counted_diff_of(middle, part, chart, lay, j, hit_window)
}

// The value at place j of a whole table.
pub fn evaluate_place(t: &[f64], chart: &[u8], lay: Layout, j: usize, hit_window: f64) -> f64
    requires { Holds chart.now lay × (1 ≤ j) × (j < lay.n) × (16 * lay.n ≤ length t.now) }
    ensures { result ≡ rhythm_at_place (object_of chart.now lay) (record_at t.now) (last_place j lay.n) j hit_window }
{
    evaluate_counted(t, chart, lay, j, hit_window).value
}
