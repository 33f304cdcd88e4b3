// The object record: src/osu/difficulty/object.rs.
#![tactic(auto)]

ghost use Rattle.std.specs.Option.{is_some, unwrap_or};
ghost use Rattle.std.specs.Prelude.{◌≡◌, ◌<◌};
ghost use Rattle.osu_object.specs.Osu.{Ready, object_of};
ghost use Rattle.osu_difficulty_object.specs.Record.{plain_of, placed_of, travel_of, end_cursor, last_cursor, jump_dist, min_jump_time};
ghost use Rattle.osu_difficulty_object.specs.Record.{min_jump_dist, slider_jump, jump_of, turn_of, angle_to, distances_of, new_record};
ghost use Rattle.osu_difficulty_object.specs.Reading.{window_of, tapness_of, doubletapness, fade_in, fade_out, opacity_at};

use chart_fields::Layout;
use chart_opening::Settings;
use cursor::Cursor;
use osu_object::{OsuObject, OsuObjectKind, OsuSlider, Runs};
use osu_pos::Pos;

pub mod cursor;

// What records take from one object. Cursor, tail and repeats are zeros but for a slider.
#[derive(Clone, Copy)]
pub struct Placed {
    pub base: OsuObject,
    pub cursor: Cursor,
    pub tail: Pos,
    pub repeats: u32,
}

// How far and how long a slider travels.
#[derive(Clone, Copy)]
pub struct Travel {
    pub dist: f64,
    pub time: f64,
}

// From the object before.
#[derive(Clone, Copy)]
pub struct Jump {
    pub lazy_dist: f64,
    pub min_dist: f64,
    pub min_time: f64,
}

// What `set_distances` works out for a record.
#[derive(Clone, Copy)]
pub struct Distances {
    pub travel: Travel,
    pub jump: Jump,
    pub angle: Option<f64>,
}

// The record of a place, times and distances by clock rate and radius; 0 where there is no value.
#[derive(Clone, Copy)]
pub struct OsuDifficultyObject {
    pub start_time: f64,
    pub delta_time: f64,
    pub adjusted_delta_time: f64,
    pub lazy_jump_dist: f64,
    pub min_jump_dist: f64,
    pub min_jump_time: f64,
    pub travel_dist: f64,
    pub travel_time: f64,
    pub lazy_end_x: f32,
    pub lazy_end_y: f32,
    pub lazy_travel_dist: f64,
    pub lazy_travel_time: f64,
    pub angle: f64,
    pub small_circle_bonus: f64,
    // Flags by a rule of the project: the record is a struct of f64 and f32 fields with flags for angle and lazy end, returned by value.
    pub has_lazy_end: bool,
    pub has_angle: bool,
}

impl OsuDifficultyObject {
    pub const NORMALIZED_RADIUS: i32 = 50;

    pub const NORMALIZED_DIAMETER: i32 = Self::NORMALIZED_RADIUS * 2;

    pub const MIN_DELTA_TIME: f64 = 25.0;

    pub const MAX_SLIDER_RADIUS: f32 = Self::NORMALIZED_RADIUS as f32 * 2.4;

    pub const ASSUMED_SLIDER_RADIUS: f32 = Self::NORMALIZED_RADIUS as f32 * 1.8;

    // The record of place j, from the objects at j, j - 1 and j - 2 (any object where j is 1). Of the
    // records before, which the Rust takes too, it reads nothing that their objects do not give.
    pub fn new(set: Settings, j: usize, o: Placed, last: Placed, last_last: Placed) -> Self
        ensures { result ≡ new_record set j o last last_last }
    {
        let cursor = o.cursor;
        let delta_time = (o.base.start_time - last.base.start_time) / set.clock_rate;
        let adjusted = num_floats::max(delta_time, Self::MIN_DELTA_TIME);
        let Distances {
            travel,
            jump,
            angle,
        } = set_distances(set, j, adjusted, o, last, last_last);
        Self {
            start_time: o.base.start_time / set.clock_rate,
            delta_time: delta_time,
            adjusted_delta_time: adjusted,
            lazy_jump_dist: jump.lazy_dist,
            min_jump_dist: jump.min_dist,
            min_jump_time: jump.min_time,
            travel_dist: travel.dist,
            travel_time: travel.time,
            lazy_end_x: cursor.lazy_end.x,
            lazy_end_y: cursor.lazy_end.y,
            lazy_travel_dist: cursor.lazy_travel_dist,
            lazy_travel_time: cursor.lazy_travel_time,
            angle: angle.unwrap_or(0.0),
            small_circle_bonus: num_floats::max(
                1.0 + (SMALL_RADIUS - set.radius) / SMALL_RADIUS_SCALE,
                1.0,
            ),
            has_lazy_end: cursor.has_lazy_end,
            has_angle: angle.is_some(),
        }
    }

    // With whether the base object is a spinner, and the next record where there is one.
    pub fn get_doubletapness(
        self,
        is_spinner: bool,
        next: Option<OsuDifficultyObject>,
        hit_window: f64,
    ) -> f64
        ensures { result ≡ doubletapness self is_spinner (is_some next) (unwrap_or next self) hit_window }
    {
        match next {
            None => 0.0,
            Some(next) => tapness(
                self.delta_time,
                next.delta_time,
                window_of(is_spinner, hit_window),
            ),
        }
    }
}

// The hit window of an object: a spinner has none.
pub fn window_of(is_spinner: bool, hit_window: f64) -> f64
    ensures { result ≡ window_of is_spinner hit_window }
{
    if is_spinner { 0.0 } else { hit_window }
}

// `get_doubletapness` of two delta times and the object's hit window.
pub fn tapness(delta_time: f64, next_delta: f64, hit_window: f64) -> f64
    ensures { result ≡ tapness_of delta_time next_delta hit_window }
{
    let curr_delta_time = num_floats::max(delta_time, 1.0);
    let next_delta_time = num_floats::max(next_delta, 1.0);
    let delta_diff = num_floats::abs(next_delta_time - curr_delta_time);
    let speed_ratio = curr_delta_time / num_floats::max(curr_delta_time, delta_diff);
    let window_ratio = num_elementary::power(
        num_floats::min(curr_delta_time / hit_window, 1.0),
        2.0,
    );
    1.0 - num_elementary::power(speed_ratio, 1.0 - window_ratio)
}

const HD_FADE_OUT_DURATION_MULTIPLIER: f64 = 0.3;

// The small circle bonus begins at this radius, and as much less as the scale would double it.
const SMALL_RADIUS: f64 = 30.0;

const SMALL_RADIUS_SCALE: f64 = 40.0;

// So many repeats double what a slider's travel distance is raised from.
const REPEAT_SCALE: f64 = 2.5;

// How much of an object is shown at a time before its start, not hidden.
fn fade_in(start_time: f64, time: f64, time_preempt: f64, time_fade_in: f64) -> f64
    ensures { result ≡ fade_in start_time time time_preempt time_fade_in }
{
    let fade_in_start_time = start_time - time_preempt;
    num_floats::clamp((time - fade_in_start_time) / time_fade_in, 0.0, 1.0)
}

// How much of a hidden object has gone again.
fn fade_out(start_time: f64, time: f64, time_preempt: f64, time_fade_in: f64) -> f64
    ensures { result ≡ fade_out start_time time time_preempt time_fade_in }
{
    let fade_out_start_time = start_time - time_preempt + time_fade_in;
    let fade_out_duration = time_preempt * HD_FADE_OUT_DURATION_MULTIPLIER;
    num_floats::clamp((time - fade_out_start_time) / fade_out_duration, 0.0, 1.0)
}

// `opacity_at` of an object with this start time.
pub fn opacity_at(
    start_time: f64,
    time: f64,
    hidden: bool,
    time_preempt: f64,
    time_fade_in: f64,
) -> f64
    ensures { result ≡ opacity_at start_time time hidden time_preempt time_fade_in }
{
    if time > start_time {
        return 0.0;
    }
    let shown = fade_in(start_time, time, time_preempt, time_fade_in);
    if hidden {
        return num_floats::min(
            shown,
            1.0 - fade_out(start_time, time, time_preempt, time_fade_in),
        );
    }
    shown
}

// An object that is no slider.
fn plain(base: OsuObject) -> Placed
    ensures { result ≡ plain_of base }
{
    let zero = Pos { x: 0.0, y: 0.0 };
    let cursor = Cursor {
        has_lazy_end: false,
        lazy_end: zero,
        lazy_travel_dist: 0.0,
        lazy_travel_time: 0.0,
    };
    Placed {
        base,
        cursor,
        tail: zero,
        repeats: 0,
    }
}

// The object at a place.
pub fn placed_at(chart: &[u8], lay: Layout, i: usize, radius: f64) -> Placed
    requires { Ready chart.now lay × (i < lay.n) }
    ensures { result ≡ placed_of radius (object_of chart.now lay i) }
{
    let f = chart_fields::fields_of(chart, lay, i);
    let base = OsuObject::new(f);
    match base.kind {
        OsuObjectKind::Circle => plain(base),
        OsuObjectKind::Spinner => plain(base),
        OsuObjectKind::Slider(end, spans) => {
            let runs = Runs::from(f);
            let slider = OsuSlider { chart, lay, runs };
            Placed {
                base,
                cursor: cursor::compute_slider_cursor_pos(&slider, base, end, spans, radius),
                tail: slider.tail(),
                repeats: slider.repeat_count(),
            }
        }
    }
}

// Travel distance and time, 0 but for a slider.
fn travel_of(o: Placed, clock_rate: f64) -> Travel
    ensures { result ≡ travel_of o clock_rate }
{
    if o.base.is_slider() {
        return Travel {
            dist: o.cursor.lazy_travel_dist
                * num_elementary::power(1.0 + o.repeats as f64 / REPEAT_SCALE, 1.0 / REPEAT_SCALE),
            time: num_floats::max(
                o.cursor.lazy_travel_time / clock_rate,
                OsuDifficultyObject::MIN_DELTA_TIME,
            ),
        };
    }
    Travel {
        dist: 0.0,
        time: 0.0,
    }
}

// Where the cursor leaves an object: at a slider's lazy end.
#[tactic(auto, unfolding(crate::specs::Record::end_cursor))]
fn get_end_cursor_pos(o: Placed) -> Pos
    ensures { result ≡ end_cursor o }
{
    if o.cursor.has_lazy_end {
        o.cursor.lazy_end
    } else {
        o.base.stacked_pos()
    }
}

// Where the cursor comes from. The object at place 0 has no record, so no lazy end.
#[tactic(auto, unfolding(crate::specs::Record::last_cursor))]
fn last_cursor_pos(j: usize, last: Placed) -> Pos
    ensures { result ≡ last_cursor j last }
{
    if j < 2 {
        return last.base.stacked_pos();
    }
    get_end_cursor_pos(last)
}

// How far the jump to an object is, in normalized radii.
fn jump_dist(base: OsuObject, last_cursor: Pos, factor: f32) -> f64
    ensures { result ≡ jump_dist base last_cursor factor }
{
    let jump = base.stacked_pos() * factor - last_cursor * factor;
    num_floats::widen(jump.length())
}

// The time that is left for a jump after the slider before.
fn min_jump_time(adjusted: f64, lazy_travel_time: f64, clock_rate: f64) -> f64
    ensures { result ≡ min_jump_time adjusted lazy_travel_time clock_rate }
{
    let last_travel_time = num_floats::max(
        lazy_travel_time / clock_rate,
        OsuDifficultyObject::MIN_DELTA_TIME,
    );
    num_floats::max(
        adjusted - last_travel_time,
        OsuDifficultyObject::MIN_DELTA_TIME,
    )
}

// The jump that is left after the slider before, from its lazy end or from its tail.
fn min_jump_dist(base: OsuObject, stacked_tail: Pos, factor: f32, lazy_dist: f64) -> f64
    ensures { result ≡ min_jump_dist base stacked_tail factor lazy_dist }
{
    let tail_jump_dist = (stacked_tail - base.stacked_pos()).length() * factor;
    let diff = num_floats::widen(
        OsuDifficultyObject::MAX_SLIDER_RADIUS - OsuDifficultyObject::ASSUMED_SLIDER_RADIUS,
    );
    let min = num_floats::widen(tail_jump_dist - OsuDifficultyObject::MAX_SLIDER_RADIUS);
    num_floats::max(num_floats::min(lazy_dist - diff, min), 0.0)
}

// The jump from a slider.
fn slider_jump(set: Settings, adjusted: f64, base: OsuObject, last: Placed, lazy_dist: f64) -> Jump
    ensures { result ≡ slider_jump set adjusted base last lazy_dist }
{
    let stacked_tail = last.tail + last.base.stack_offset;
    Jump {
        lazy_dist: lazy_dist,
        min_dist: min_jump_dist(base, stacked_tail, set.factor, lazy_dist),
        min_time: min_jump_time(adjusted, last.cursor.lazy_travel_time, set.clock_rate),
    }
}

// The jump from the object before.
fn jump_of(set: Settings, j: usize, adjusted: f64, o: Placed, last: Placed) -> Jump
    ensures { result ≡ jump_of set j adjusted o last }
{
    let base = o.base;
    let last_base = last.base;
    if base.is_spinner() | last_base.is_spinner() {
        return Jump {
            lazy_dist: 0.0,
            min_dist: 0.0,
            min_time: 0.0,
        };
    }
    let lazy_dist = jump_dist(base, last_cursor_pos(j, last), set.factor);
    if (1 < j) & last_base.is_slider() {
        return slider_jump(set, adjusted, base, last, lazy_dist);
    }
    Jump {
        lazy_dist: lazy_dist,
        min_dist: lazy_dist,
        min_time: adjusted,
    }
}

// The angle at the last object between the way to it and the way to this one.
fn angle_to(base: OsuObject, last_pos: Pos, last_cursor: Pos, last_last_cursor: Pos) -> f64
    ensures { result ≡ angle_to base last_pos last_cursor last_last_cursor }
{
    let v1 = last_last_cursor - last_pos;
    let v2 = base.stacked_pos() - last_cursor;
    num_angle::angle(num_floats::widen(v1.dot(v2)), num_floats::widen(v1.det(v2)))
}

// The angle, from place 3 on and where none of the three objects is a spinner.
fn turn_of(j: usize, o: Placed, last: Placed, last_last: Placed) -> Option<f64>
    ensures { result ≡ turn_of j o last last_last }
{
    let base = o.base;
    let last_base = last.base;
    let last_last_base = last_last.base;
    if (2 < j) & !base.is_spinner() & !last_base.is_spinner() & !last_last_base.is_spinner() {
        return Some(angle_to(
            base,
            last_base.stacked_pos(),
            last_cursor_pos(j, last),
            get_end_cursor_pos(last_last),
        ));
    }
    None
}

// The Rust's `set_distances`: travel, jump and angle of the record of place j.
fn set_distances(
    set: Settings,
    j: usize,
    adjusted: f64,
    o: Placed,
    last: Placed,
    last_last: Placed,
) -> Distances
    ensures { result ≡ distances_of set j adjusted o last last_last }
{
    Distances {
        travel: travel_of(o, set.clock_rate),
        jump: jump_of(set, j, adjusted, o, last),
        angle: turn_of(j, o, last, last_last),
    }
}
