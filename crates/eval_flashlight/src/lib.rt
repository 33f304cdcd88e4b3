// How hard an object is to remember and see within the flashlight: evaluators/flashlight.rs.
#![tactic(auto)]

ghost use Rattle.std.specs.Prelude.{◌≡◌, ◌+◌, ◌*◌, ◌-◌, ◌≤◌, ◌<◌, length};
ghost use Rattle.osu_object.specs.Osu.{Ready, object_of};
ghost use Rattle.osu_records.specs.Rows.{record_at};
ghost use Rattle.osu_records.specs.Part.{Covers, part_at};
ghost use Rattle.eval_flashlight.specs.Constants.{history};
ghost use Rattle.eval_flashlight.specs.Flashlight.{new_evaluator, evaluator_of, opacity_bonus, small_dist_nerf};
ghost use Rattle.eval_flashlight.specs.Flashlight.{added_of, repeated_of, fresh_state, step_of, turns_at_place};
ghost use Rattle.eval_flashlight.specs.Flashlight.{hidden_of, shared_of, slider_bonus, value_of, flashlight_at_place};

use chart_fields::Layout;
use chart_opening::Settings;
use osu_difficulty_object::OsuDifficultyObject;
use osu_pos::Pos;
use osu_records::{Part, Sight};

// The flashlight's scaling factor is this over the radius.
const SCALED_RADIUS: f64 = 52.0;

// How many records the walk goes back over at most.
const HISTORY: usize = 10;

#[derive(Clone, Copy)]
pub struct FlashlightEvaluator {
    pub scaling_factor: f64,
    pub time_preempt: f64,
    pub time_fade_in: f64,
}

// What the walk back carries.
#[derive(Clone, Copy)]
pub struct FlashlightState {
    pub small_dist_nerf: f64,
    pub cumulative_strain_time: f64,
    pub result: f64,
    pub angle_repeat_count: f64,
}

// The evaluator that skills/flashlight.rs makes. Its scaling factor is neither the header's nor the record's.
#[tactic(auto, unfolding(crate::specs::Flashlight::evaluator_of))]
pub fn evaluator_of(set: Settings) -> FlashlightEvaluator
    ensures { result ≡ evaluator_of set }
{
    FlashlightEvaluator::new(SCALED_RADIUS / set.radius, set.preempt, set.fade_in)
}

// An object that is seen within the flashlight counts less: the nearest one in time decides.
#[tactic(auto, unfolding(crate::specs::Flashlight::small_dist_nerf))]
fn small_dist_nerf(old: f64, jump_dist: f64, i: usize) -> f64
    ensures { result ≡ small_dist_nerf old jump_dist i }
{
    if i == 0 {
        return num_floats::min(jump_dist / 75.0, 1.0);
    }
    old
}

// The count of repeated angles, in which objects further back count less.
#[tactic(auto, unfolding(crate::specs::Flashlight::repeated_of))]
fn repeated(count: f64, obj: OsuDifficultyObject, curr: OsuDifficultyObject, i: usize) -> f64
    requires { i ≤ history }
    ensures { result ≡ repeated_of count obj curr i }
{
    if obj.has_angle & curr.has_angle & (num_floats::abs(obj.angle - curr.angle) < 0.02) {
        return count + num_floats::max(1.0 - 0.1 * i as f64, 0.0);
    }
    count
}

// The result, more with hidden, for there are no approach circles then.
#[tactic(auto, unfolding(crate::specs::Flashlight::hidden_of))]
fn with_hidden(res: f64, hidden: bool) -> f64
    ensures { result ≡ hidden_of res hidden }
{
    if hidden {
        return res * (1.0 + FlashlightEvaluator::HIDDEN_BONUS);
    }
    res
}

// A slider's bonus, less for one with repeats, of which less has to be remembered.
#[tactic(auto, unfolding(crate::specs::Flashlight::shared_of))]
fn shared(bonus: f64, repeat_count: u32) -> f64
    requires { repeat_count ≤ 65536 }
    ensures { result ≡ shared_of bonus repeat_count }
{
    if repeat_count > 0 {
        return bonus / (repeat_count + 1) as f64;
    }
    bonus
}

impl FlashlightState {
    // Before the first record.
    #[tactic(auto, unfolding(crate::specs::Flashlight::fresh_state))]
    fn new() -> Self
        ensures { result ≡ fresh_state }
    {
        Self {
            small_dist_nerf: 1.0,
            cumulative_strain_time: 0.0,
            result: 0.0,
            angle_repeat_count: 0.0,
        }
    }
}

impl FlashlightEvaluator {
    const MAX_OPACITY_BONUS: f64 = 0.4;

    const HIDDEN_BONUS: f64 = 0.2;

    const MIN_VELOCITY: f64 = 0.5;

    const SLIDER_MULTIPLIER: f64 = 1.3;

    const MIN_ANGLE_MULTIPLIER: f64 = 0.2;

    // An evaluator of a scaling factor, a preempt and a fade-in time.
    pub fn new(scaling_factor: f64, time_preempt: f64, time_fade_in: f64) -> Self
        ensures { result ≡ new_evaluator scaling_factor time_preempt time_fade_in }
    {
        Self {
            scaling_factor,
            time_preempt,
            time_fade_in,
        }
    }

    // How visible the object that starts at `start` is at `time`.
    #[tactic(auto, unfolding(crate::specs::Flashlight::opacity_bonus))]
    fn opacity_bonus(self, start: f64, time: f64, hidden: bool) -> f64
        ensures { result ≡ opacity_bonus self start time hidden }
    {
        let opacity = osu_difficulty_object::opacity_at(
            start,
            time,
            hidden,
            self.time_preempt,
            self.time_fade_in,
        );
        1.0 + Self::MAX_OPACITY_BONUS * (1.0 - opacity)
    }

    // What an object adds to the result; of a stack only the first counts.
    #[tactic(auto, unfolding(crate::specs::Flashlight::added_of))]
    fn added(self, lazy_jump_dist: f64, jump_dist: f64, opacity_bonus: f64, time: f64) -> f64
        ensures { result ≡ added_of self lazy_jump_dist jump_dist opacity_bonus time }
    {
        let stack_nerf = num_floats::min(lazy_jump_dist / self.scaling_factor / 25.0, 1.0);
        stack_nerf * opacity_bonus * self.scaling_factor * jump_dist / time
    }

    // One turn: obj stands i + 1 places back and ends at `end`, last is the record after it.
    #[tactic(auto, unfolding(crate::specs::Flashlight::step_of))]
    fn step(
        self,
        s: FlashlightState,
        curr: Sight,
        last: OsuDifficultyObject,
        obj: Sight,
        end: Pos,
        i: usize,
        hidden: bool,
    ) -> FlashlightState
        requires { i ≤ history }
        ensures { result ≡ step_of self s curr last obj end i hidden }
    {
        let time = s.cumulative_strain_time + last.adjusted_delta_time;
        let o = obj.diff;
        let base = curr.base;
        let obj_base = obj.base;
        if obj_base.spinner {
            return FlashlightState {
                cumulative_strain_time: time,
                ..s
            };
        }
        let jump_dist = num_floats::widen((base.pos - end).length());
        let opacity_bonus = self.opacity_bonus(base.start_time, obj_base.start_time, hidden);
        let added = self.added(o.lazy_jump_dist, jump_dist, opacity_bonus, time);
        FlashlightState {
            small_dist_nerf: small_dist_nerf(s.small_dist_nerf, jump_dist, i),
            cumulative_strain_time: time,
            result: s.result + added,
            angle_repeat_count: repeated(s.angle_repeat_count, o, curr.diff, i),
        }
    }

    // The walk back over n records.
    fn walk(
        self,
        t: &[f64],
        part: Part,
        chart: &[u8],
        lay: Layout,
        j: usize,
        n: usize,
        hidden: bool,
    ) -> FlashlightState
        requires { (n ≤ j - 1) × (n ≤ history) × Ready chart.now lay × (j < lay.n) × Covers t.now part j }
        ensures { result ≡ turns_at_place self (object_of chart.now lay) (part_at t.now part) j hidden n }
    {
        let curr = osu_records::sight_at(t, part, chart, lay, j);
        let mut last = curr.diff;
        let mut s = FlashlightState::new();
        for k in 0..n {
            let p = j - (k + 1);
            let obj = osu_records::sight_at(t, part, chart, lay, p);
            let end = osu_object::end_at(chart, lay, p);
            s = self.step(s, curr, last, obj, end, k, hidden);
            last = obj.diff;
        }
        s
    }

    // A slider's bonus: by the velocity and length of the true travel, which does not depend on circle size.
    #[tactic(auto, unfolding(crate::specs::Flashlight::slider_bonus))]
    fn slider_bonus(self, curr: OsuDifficultyObject, slider: bool, repeat_count: u32) -> f64
        requires { repeat_count ≤ 65536 }
        ensures { result ≡ slider_bonus self curr slider repeat_count }
    {
        if slider {
            let pixel_travel_dist = curr.lazy_travel_dist / self.scaling_factor;
            let above = num_floats::max(
                pixel_travel_dist / curr.travel_time - Self::MIN_VELOCITY,
                0.0,
            );
            return shared(
                num_elementary::power(above, 0.5) * pixel_travel_dist,
                repeat_count,
            );
        }
        0.0
    }

    // The value after the walk.
    #[tactic(auto, unfolding(crate::specs::Flashlight::value_of))]
    fn value(
        self,
        s: FlashlightState,
        curr: OsuDifficultyObject,
        slider: bool,
        repeat_count: u32,
        hidden: bool,
    ) -> f64
        requires { repeat_count ≤ 65536 }
        ensures { result ≡ value_of self s curr slider repeat_count hidden }
    {
        let squared = num_elementary::power(s.small_dist_nerf * s.result, 2.0);
        let result = with_hidden(squared, hidden);
        let bonus = self.slider_bonus(curr, slider, repeat_count);
        result
            * (Self::MIN_ANGLE_MULTIPLIER
                + (1.0 - Self::MIN_ANGLE_MULTIPLIER) / (s.angle_repeat_count + 1.0))
            + bonus * Self::SLIDER_MULTIPLIER
    }

    // The value at place j, from a part of the record table.
    pub fn evaluate_diff_of(
        self,
        t: &[f64],
        part: Part,
        chart: &[u8],
        lay: Layout,
        j: usize,
        hidden: bool,
    ) -> f64
        requires { Ready chart.now lay × (j < lay.n) × Covers t.now part j }
        ensures { result ≡ flashlight_at_place self (object_of chart.now lay) (part_at t.now part) j hidden }
    {
        let curr = osu_records::sight_at(t, part, chart, lay, j);
        let base = curr.base;
        if base.spinner {
            return 0.0;
        }
        let s = self.walk(t, part, chart, lay, j, (j - 1).min(HISTORY), hidden);
        let repeat_count = osu_object::repeats_at(chart, lay, j);
        self.value(s, curr.diff, base.slider, repeat_count, hidden)
    }

    // The value at place j of a whole table: the evaluator is lent the middle of it.
    pub fn evaluate_place(self, t: &[f64], chart: &[u8], lay: Layout, j: usize, hidden: bool) -> f64
        requires { Ready chart.now lay × (1 ≤ j) × (j < lay.n) × (16 * lay.n ≤ length t.now) }
        ensures { result ≡ flashlight_at_place self (object_of chart.now lay) (record_at t.now) j hidden }
    {
        let part = osu_records::part_of(j, lay.n);
        let middle = &t[16 * part.first..16 * (part.last + 1)];
        self.evaluate_diff_of(middle, part, chart, lay, j, hidden)
    }
}
