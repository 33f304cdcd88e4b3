// The cursor of a slider: where it ends, how far and how long it travels.
ghost use Rattle.std.specs.Prelude.{◌≡◌, ◌+◌, ◌<◌, ◌≤◌, MatchOption};
ghost use Rattle.osu_object.specs.Osu.{nested_list, point_list, is_tick};
ghost use Rattle.osu_difficulty_object.specs.Cursor.{last_tick, tracking_end, tracking_of, order_of, folded_of, movement_of};
ghost use Rattle.osu_difficulty_object.specs.Cursor.{required_of, advanced_of, step_of, run_of, start_of, slider_cursor};

use crate::OsuDifficultyObject;
use chart_entries::{Nested, NestedKind};
use osu_object::{OsuObject, OsuSlider};
use osu_pos::Pos;

// A slider is tracked until this long before its end, in milliseconds.
const TAIL_LENIENCY: f64 = -36.0;

// The place from which the order of entries is turned, the number of entries if it stays, and the tracking end time.
// `moved` is no Option: the theorems of test_examples on `tracking_of` have the number of entries for an order that stays.
#[derive(Clone, Copy)]
pub struct Tracking {
    pub moved: usize,
    pub end_time: f64,
}

// The walk over the entries: where the cursor is, the lazy end, and how far it travelled.
#[derive(Clone, Copy)]
pub struct CursorState {
    pub cursor: Pos,
    pub lazy_end: Pos,
    pub travel_dist: f64,
}

// What the record takes from a slider; zeros for the other kinds. A flag and a position, and no Option, by what may not change:
// `OsuDifficultyObject::new` answers with the position where the flag is not set, too.
#[derive(Clone, Copy)]
pub struct Cursor {
    pub has_lazy_end: bool,
    pub lazy_end: Pos,
    pub lazy_travel_dist: f64,
    pub lazy_travel_time: f64,
}

// Whether nested entry k is a tick.
fn is_tick(slider: &OsuSlider, k: usize) -> bool
    requires { k < slider.now.runs.nested_count }
    ensures { result ≡ is_tick (nested_list slider.now.chart.now slider.now.lay slider.now.runs) k }
{
    slider.nested(k).kind == NestedKind::Tick as u32
}

// The last tick's place.
fn last_tick(slider: &OsuSlider) -> Option<usize>
    ensures { let last = last_tick (nested_list slider.now.chart.now slider.now.lay slider.now.runs) in
        MatchOption result (last ≡ 0) (λ k. (last ≡ k + 1) × (k < slider.now.runs.nested_count)) }
{
    (0..slider.runs.nested_count)
        .rev()
        .find(|&k| is_tick(slider, k))
}

// When tracking ends: 36 ms before the end, or half way where that is later.
fn tracking_end(start: f64, duration: f64) -> f64
    ensures { result ≡ tracking_end start duration }
{
    num_floats::max(start + duration + TAIL_LENIENCY, start + duration / 2.0)
}

// The last tick is taken last and ends the tracking where it starts after t, the end by the slider's times.
fn tracking_of(slider: &OsuSlider, t: f64) -> Tracking
    ensures { (result ≡ tracking_of (nested_list slider.now.chart.now slider.now.lay slider.now.runs) t) × (result.moved ≤ slider.now.runs.nested_count) }
{
    let in_order = Tracking {
        moved: slider.runs.nested_count,
        end_time: t,
    };
    match last_tick(slider) {
        None => in_order,
        Some(moved) => {
            let end_time = slider.nested(moved).start;
            if end_time > t {
                Tracking { moved, end_time }
            } else {
                in_order
            }
        }
    }
}

// The entry that comes k-th: from the place `moved` on they are turned left by one.
fn order(moved: usize, count: usize, k: usize) -> usize
    requires { (k < count) × (count ≤ 65536) }
    ensures { (result ≡ order_of moved count k) × (result < count) }
{
    if k < moved {
        return k;
    }
    if k + 1 < count {
        return k + 1;
    }
    moved
}

// A time counted in spans as progress on the path: odd spans run backwards.
fn folded(end_time_min: f64) -> f64
    ensures { result ≡ folded_of end_time_min }
{
    if num_whole::rem_two(end_time_min) >= 1.0 {
        return 1.0 - num_whole::rem_one(end_time_min);
    }
    num_whole::rem_one(end_time_min)
}

// How far the cursor may stay behind an entry: a repeat that is not the last needs the closer one.
fn required_movement(kind: u32, last: bool) -> f64
    ensures { result ≡ required_of kind last }
{
    if last {
        return num_floats::widen(OsuDifficultyObject::ASSUMED_SLIDER_RADIUS);
    }
    if kind == NestedKind::Repeat as u32 {
        return OsuDifficultyObject::NORMALIZED_RADIUS as f64;
    }
    num_floats::widen(OsuDifficultyObject::ASSUMED_SLIDER_RADIUS)
}

impl CursorState {
    // From the cursor to entry e; at the last entry to the lazy end where that is closer.
    fn movement(self, e: Nested, stack_offset: Pos, last: bool) -> Pos
        ensures { result ≡ movement_of self e stack_offset last }
    {
        let movement = Pos { x: e.x, y: e.y } + stack_offset - self.cursor;
        if last {
            let lazy_movement = self.lazy_end - self.cursor;
            if lazy_movement.length() < movement.length() {
                return lazy_movement;
            }
        }
        movement
    }

    // The cursor after a movement, by as much as is required.
    fn advanced(self, movement: Pos, movement_len: f64, required: f64) -> CursorState
        ensures { result ≡ advanced_of self movement movement_len required }
    {
        if movement_len > required {
            let share = (movement_len - required) / movement_len;
            return CursorState {
                cursor: self.cursor + movement * num_whole::f64_to_f32(share),
                lazy_end: self.lazy_end,
                travel_dist: self.travel_dist + movement_len * share,
            };
        }
        self
    }

    // The cursor after entry e; after the last one it is the lazy end.
    fn step(self, e: Nested, stack_offset: Pos, scaling_factor: f64, last: bool) -> CursorState
        ensures { result ≡ step_of self e stack_offset scaling_factor last }
    {
        let movement = self.movement(e, stack_offset, last);
        let movement_len = scaling_factor * num_floats::widen(movement.length());
        let next = self.advanced(movement, movement_len, required_movement(e.kind, last));
        if last {
            return CursorState {
                cursor: next.cursor,
                lazy_end: next.cursor,
                travel_dist: next.travel_dist,
            };
        }
        next
    }
}

// The walk over all entries.
fn run(
    slider: &OsuSlider,
    stack_offset: Pos,
    scaling_factor: f64,
    moved: usize,
    from: CursorState,
) -> CursorState
    ensures { let ns = nested_list slider.now.chart.now slider.now.lay slider.now.runs in
        result ≡ run_of ns stack_offset scaling_factor moved slider.now.runs.nested_count from }
{
    let count = slider.runs.nested_count;
    let mut s = from;
    for k in 0..count {
        let e = slider.nested(order(moved, count, k));
        s = s.step(e, stack_offset, scaling_factor, k + 1 == count);
    }
    s
}

// Where the walk starts, and the lazy end before it.
fn start_state(slider: &OsuSlider, head: Pos, stated: f64, progress: f64) -> CursorState
    ensures { result ≡ start_of head (point_list slider.now.chart.now slider.now.lay slider.now.runs) stated progress }
{
    CursorState {
        cursor: head,
        lazy_end: head + slider.position_at(stated, folded(progress)),
        travel_dist: 0.0,
    }
}

// What the record takes from the slider, which is the object o with this end and these spans.
pub fn compute_slider_cursor_pos(
    slider: &OsuSlider,
    o: OsuObject,
    end: f64,
    spans: f64,
    radius: f64,
) -> Cursor
    ensures { let ns = nested_list slider.now.chart.now slider.now.lay slider.now.runs in
        result ≡ slider_cursor o end spans ns (point_list slider.now.chart.now slider.now.lay slider.now.runs) radius }
{
    let duration = end - o.start_time;
    let t = tracking_of(slider, tracking_end(o.start_time, duration));
    let travel_time = t.end_time - o.start_time;
    let from = start_state(
        slider,
        o.stacked_pos(),
        o.length,
        travel_time / (duration / spans),
    );
    let scaling_factor = OsuDifficultyObject::NORMALIZED_RADIUS as f64 / radius;
    let s = run(slider, o.stack_offset, scaling_factor, t.moved, from);
    Cursor {
        has_lazy_end: true,
        lazy_end: s.lazy_end,
        lazy_travel_dist: s.travel_dist,
        lazy_travel_time: travel_time,
    }
}
