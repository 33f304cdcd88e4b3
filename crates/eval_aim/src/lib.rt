// How hard an object is to aim at: evaluators/aim.rs.
#![tactic(auto)]

ghost use Rattle.std.specs.Prelude.{◌≡◌, true, false, ◌+◌, ◌*◌, ◌-◌, ◌≤◌, ◌<◌, leb, length};
ghost use Rattle.std.specs.Option.{is_some, unwrap_or};
ghost use Rattle.chart_fields.specs.Objects.{Holds};
ghost use Rattle.osu_object.specs.Osu.{object_of};
ghost use Rattle.osu_object.specs.Base.{base_of};
ghost use Rattle.osu_records.specs.Rows.{record_at};
ghost use Rattle.osu_records.specs.Part.{Covers, part_at};
ghost use Rattle.eval_aim.specs.Constants.{zero32};
ghost use Rattle.eval_aim.specs.Aim.{velocity_of, wide_angle, acute_angle, acute_repeated, acute_of, wide_of, wiggle_of, spacing_of, close_of, angles_of};
ghost use Rattle.eval_aim.specs.Aim.{change_of, vel_change, slider_bonus, rule_of, no_parts, bonuses_of, combine_of, parts_at_place, aim_at_place};

use chart_fields::Layout;
use osu_difficulty_object::OsuDifficultyObject;
use osu_pos::Pos;
use osu_records::{Part, Sight};

const RADIUS: i32 = OsuDifficultyObject::NORMALIZED_RADIUS;

const DIAMETER: i32 = OsuDifficultyObject::NORMALIZED_DIAMETER;

const TWO_DIAMETERS: i32 = DIAMETER * 2;

const THREE_DIAMETERS: i32 = DIAMETER * 3;

const WIDE_ANGLE_MULTIPLIER: f64 = 1.5;

const ACUTE_ANGLE_MULTIPLIER: f64 = 2.55;

const SLIDER_MULTIPLIER: f64 = 1.35;

const VELOCITY_CHANGE_MULTIPLIER: f64 = 0.75;

const WIGGLE_MULTIPLIER: f64 = 1.02;

// Which rule answered.
#[derive(Clone, Copy)]
pub enum AimRule {
    TooFew,
    Spinner,
    Acute,
    Wide,
}

// What the branch on the angles assigns.
#[derive(Clone, Copy, Default)]
pub struct AngleBonus {
    pub wide: f64,
    pub acute: f64,
    pub wiggle: f64,
}

// The value in parts, as they stand before the last lines put them together.
#[derive(Clone, Copy)]
pub struct AimParts {
    pub rule: AimRule,
    pub curr_vel: f64,
    pub prev_vel: f64,
    pub wide: f64,
    pub acute: f64,
    pub wiggle: f64,
    pub vel_change: f64,
    pub slider: f64,
    pub small_circle_bonus: f64,
}

// The values of a place with and without sliders.
#[derive(Clone, Copy)]
pub struct AimValues {
    pub with: f64,
    pub without: f64,
}

// The velocity to an object, through the one before it where that is a slider.
#[tactic(auto, unfolding(crate::specs::Aim::velocity_of))]
fn velocity(curr: OsuDifficultyObject, last: OsuDifficultyObject, slider: bool) -> f64
    ensures { result ≡ velocity_of curr last slider }
{
    let vel = curr.lazy_jump_dist / curr.adjusted_delta_time;
    if slider {
        let travel_vel = last.travel_dist / last.travel_time;
        let movement_vel = curr.min_jump_dist / curr.min_jump_time;
        return num_floats::max(vel, movement_vel + travel_vel);
    }
    vel
}

// How wide an angle is: 0 up to 40 degrees, 1 from 140 on.
#[tactic(auto, unfolding(crate::specs::Aim::wide_angle))]
fn calc_wide_angle_bonus(angle: f64) -> f64
    ensures { result ≡ wide_angle angle }
{
    num_util::difficulty::smoothstep(
        angle,
        num_angle::to_radians(40.0),
        num_angle::to_radians(140.0),
    )
}

// How acute an angle is: 0 from 140 degrees on, 1 up to 40.
#[tactic(auto, unfolding(crate::specs::Aim::acute_angle))]
fn calc_acute_angle_bonus(angle: f64) -> f64
    ensures { result ≡ acute_angle angle }
{
    num_util::difficulty::smoothstep(
        angle,
        num_angle::to_radians(140.0),
        num_angle::to_radians(40.0),
    )
}

// The bonus of an acute angle, less where the last one was acute too.
#[tactic(auto, unfolding(crate::specs::Aim::acute_repeated))]
fn acute_repeated(bonus: f64, last_angle: f64) -> f64
    ensures { result ≡ acute_repeated bonus last_angle }
{
    let cubed = num_elementary::power(calc_acute_angle_bonus(last_angle), 3.0);
    bonus * (0.08 + 0.92 * (1.0 - num_floats::min(bonus, cubed)))
}

// The bonus of an acute angle, where rhythms are the same, above 300 beats per minute and more than one diameter.
#[tactic(auto, unfolding(crate::specs::Aim::acute_of))]
fn acute(curr: OsuDifficultyObject, last: OsuDifficultyObject, angle_bonus: f64) -> f64
    ensures { result ≡ acute_of curr last angle_bonus }
{
    let a = curr.adjusted_delta_time;
    let b = last.adjusted_delta_time;
    if num_floats::max(a, b) < 1.25 * num_floats::min(a, b) {
        let bonus = acute_repeated(calc_acute_angle_bonus(curr.angle), last.angle);
        let bpm = num_util::difficulty::milliseconds_to_bpm(a, 2.0);
        let fast = num_util::difficulty::smootherstep(bpm, 300.0, 400.0);
        let far = num_util::difficulty::smootherstep(
            curr.lazy_jump_dist,
            DIAMETER as f64,
            TWO_DIAMETERS as f64,
        );
        return bonus * (angle_bonus * fast * far);
    }
    0.0
}

// The bonus of a wide angle, in full for more than one diameter.
#[tactic(auto, unfolding(crate::specs::Aim::wide_of))]
fn wide(curr: OsuDifficultyObject, last: OsuDifficultyObject, angle_bonus: f64) -> f64
    ensures { result ≡ wide_of curr last angle_bonus }
{
    let bonus = calc_wide_angle_bonus(curr.angle);
    let cubed = num_elementary::power(calc_wide_angle_bonus(last.angle), 3.0);
    let far = num_util::difficulty::smootherstep(curr.lazy_jump_dist, 0.0, DIAMETER as f64);
    bonus * (1.0 - num_floats::min(bonus, cubed)) * (angle_bonus * far)
}

// The bonus of wiggling: jumps from a radius to three diameters, with angles below 110 degrees.
#[tactic(auto, unfolding(crate::specs::Aim::wiggle_of))]
fn wiggle(curr: OsuDifficultyObject, last: OsuDifficultyObject, angle_bonus: f64) -> f64
    ensures { result ≡ wiggle_of curr last angle_bonus }
{
    let radius = RADIUS as f64;
    let diameter = DIAMETER as f64;
    let far = THREE_DIAMETERS as f64;
    let from = num_angle::to_radians(110.0);
    let to = num_angle::to_radians(60.0);
    let c1 = num_util::difficulty::smootherstep(curr.lazy_jump_dist, radius, diameter);
    let c2 = num_elementary::power(
        num_util::difficulty::reverse_lerp(curr.lazy_jump_dist, far, diameter),
        1.8,
    );
    let c3 = num_util::difficulty::smootherstep(curr.angle, from, to);
    let l1 = num_util::difficulty::smootherstep(last.lazy_jump_dist, radius, diameter);
    let l2 = num_elementary::power(
        num_util::difficulty::reverse_lerp(last.lazy_jump_dist, far, diameter),
        1.8,
    );
    let l3 = num_util::difficulty::smootherstep(last.angle, from, to);
    angle_bonus * c1 * c2 * c3 * l1 * l2 * l3
}

// The bonus of a wide angle, less where its ends lie within 1 of each other.
#[tactic(auto, unfolding(crate::specs::Aim::close_of))]
fn close(wide: f64, distance: Option<f32>) -> f64
    ensures { result ≡ close_of wide (is_some distance) (unwrap_or distance zero32) }
{
    match distance {
        Some(d) if d < 1.0 => wide * (1.0 - 0.35 * num_floats::widen(1.0 - d)),
        _ => wide,
    }
}

// The bonuses of wide, acute and wiggling angles; none where an angle is missing.
#[tactic(auto, unfolding(crate::specs::Aim::angles_of))]
fn angle_bonuses(
    curr: OsuDifficultyObject,
    last: OsuDifficultyObject,
    angle_bonus: f64,
    distance: Option<f32>,
) -> AngleBonus
    ensures { result ≡ angles_of curr last angle_bonus (is_some distance) (unwrap_or distance zero32) }
{
    if curr.has_angle & last.has_angle {
        return AngleBonus {
            wide: close(wide(curr, last, angle_bonus), distance),
            acute: acute(curr, last, angle_bonus),
            wiggle: wiggle(curr, last, angle_bonus),
        };
    }
    AngleBonus::default()
}

// The bonus of a change between two velocities over the whole objects, by the two adjusted times.
#[tactic(auto, unfolding(crate::specs::Aim::change_of))]
fn change(prev_vel: f64, curr_vel: f64, curr_time: f64, last_time: f64) -> f64
    ensures { result ≡ change_of prev_vel curr_vel curr_time last_time }
{
    let diff = num_floats::abs(prev_vel - curr_vel);
    let shorter = num_floats::min(curr_time, last_time);
    let dist_ratio = num_util::difficulty::smoothstep(
        diff / num_floats::max(prev_vel, curr_vel),
        0.0,
        1.0,
    );
    let overlap_vel_buff = num_floats::min(DIAMETER as f64 * 1.25 / shorter, diff);
    let bonus_base = shorter / num_floats::max(curr_time, last_time);
    overlap_vel_buff * dist_ratio * num_elementary::power(bonus_base, 2.0)
}

// The bonus of a change of velocity; 0 where both velocities are.
#[tactic(auto, unfolding(crate::specs::Aim::vel_change))]
fn vel_change(
    curr: OsuDifficultyObject,
    last: OsuDifficultyObject,
    last_last: OsuDifficultyObject,
    curr_vel: f64,
    prev_vel: f64,
) -> f64
    ensures { result ≡ vel_change curr last last_last curr_vel prev_vel }
{
    if num_util::float_ext::not_eq(num_floats::max(prev_vel, curr_vel), 0.0) {
        return change(
            (last.lazy_jump_dist + last_last.travel_dist) / last.adjusted_delta_time,
            (curr.lazy_jump_dist + last.travel_dist) / curr.adjusted_delta_time,
            curr.adjusted_delta_time,
            last.adjusted_delta_time,
        );
    }
    0.0
}

// The velocity along the last object where it is a slider, else 0.
#[tactic(auto, unfolding(crate::specs::Aim::slider_bonus))]
fn slider_bonus(last: OsuDifficultyObject, slider: bool) -> f64
    ensures { result ≡ slider_bonus last slider }
{
    if slider {
        last.travel_dist / last.travel_time
    } else {
        0.0
    }
}

// Which side of the last max answers: the first of equals, and of two NaNs.
fn rule(acute: f64, wide: f64) -> AimRule
    ensures { result ≡ rule_of acute wide }
{
    if acute.is_nan() {
        return if wide.is_nan() {
            AimRule::Acute
        } else {
            AimRule::Wide
        };
    }
    if acute < wide {
        AimRule::Wide
    } else {
        AimRule::Acute
    }
}

impl AimParts {
    // All parts 0, with the rule that decided.
    #[tactic(auto, unfolding(crate::specs::Aim::no_parts))]
    fn none(rule: AimRule) -> Self
        ensures { result ≡ no_parts rule }
    {
        Self {
            rule,
            curr_vel: 0.0,
            prev_vel: 0.0,
            wide: 0.0,
            acute: 0.0,
            wiggle: 0.0,
            vel_change: 0.0,
            slider: 0.0,
            small_circle_bonus: 0.0,
        }
    }

    // The value of all parts together.
    #[tactic(auto, unfolding(crate::specs::Aim::combine_of))]
    pub fn combine(self, with_slider_travel_dist: bool) -> f64
        ensures { result ≡ combine_of self with_slider_travel_dist }
    {
        let larger = num_floats::max(
            self.acute * ACUTE_ANGLE_MULTIPLIER,
            self.wide * WIDE_ANGLE_MULTIPLIER,
        );
        let aim_strain = (self.curr_vel
            + self.wiggle * WIGGLE_MULTIPLIER
            + self.vel_change * VELOCITY_CHANGE_MULTIPLIER
            + larger)
            * self.small_circle_bonus;
        if with_slider_travel_dist {
            aim_strain + self.slider * SLIDER_MULTIPLIER
        } else {
            aim_strain
        }
    }
}

// The parts for three records, none of them ruled out.
#[tactic(auto, unfolding(crate::specs::Aim::bonuses_of))]
fn bonuses(
    curr: Sight,
    last: Sight,
    last_last: Sight,
    distance: Option<f32>,
    with_slider_travel_dist: bool,
) -> AimParts
    ensures { result ≡ bonuses_of curr last last_last (is_some distance) (unwrap_or distance zero32) with_slider_travel_dist }
{
    let c = curr.diff;
    let l = last.diff;
    let ll = last_last.diff;
    let l_slider = last.base.slider;
    let ll_slider = last_last.base.slider;
    let curr_vel = velocity(c, l, l_slider & with_slider_travel_dist);
    let prev_vel = velocity(l, ll, ll_slider & with_slider_travel_dist);
    let angles = angle_bonuses(c, l, num_floats::min(curr_vel, prev_vel), distance);
    AimParts {
        rule: rule(
            angles.acute * ACUTE_ANGLE_MULTIPLIER,
            angles.wide * WIDE_ANGLE_MULTIPLIER,
        ),
        curr_vel,
        prev_vel,
        wide: angles.wide,
        acute: angles.acute,
        wiggle: angles.wiggle,
        vel_change: vel_change(c, l, ll, curr_vel, prev_vel),
        slider: slider_bonus(l, l_slider),
        small_circle_bonus: c.small_circle_bonus,
    }
}

// The distance of the object at j - 3 from the last, which stands at `last`, where it has a record.
#[tactic(auto, unfolding(crate::specs::Aim::spacing_of, osu_object::specs::Base::base_of, osu_object::specs::Osu::object_of))]
fn spacing(chart: &[u8], lay: Layout, before: usize, j: usize, last: Pos) -> Option<f32>
    requires { (before < j) × Holds chart.now lay × (j < lay.n) }
    ensures has { is_some result ≡ leb 3 before }
    ensures distance { unwrap_or result zero32 ≡ spacing_of (leb 3 before) (base_of (object_of chart.now lay (j - 3))).pos last }
{
    if before < 3 {
        return None;
    }
    let far = osu_object::base_at(chart, lay, j - 3);
    Some((far.pos - last).length())
}

// The value in parts at place j, from a part of the record table.
pub fn parts_of(
    t: &[f64],
    part: Part,
    chart: &[u8],
    lay: Layout,
    j: usize,
    with_slider_travel_dist: bool,
) -> AimParts
    requires { Holds chart.now lay × (j < lay.n) × Covers t.now part j }
    ensures { result ≡ parts_at_place (object_of chart.now lay) (part_at t.now part) j with_slider_travel_dist }
{
    let before = j - 1;
    if before < 2 {
        return AimParts::none(AimRule::TooFew);
    }
    let curr = osu_records::sight_at(t, part, chart, lay, j);
    let last = osu_records::sight_at(t, part, chart, lay, j - 1);
    if curr.base.spinner | last.base.spinner {
        return AimParts::none(AimRule::Spinner);
    }
    let last_last = osu_records::sight_at(t, part, chart, lay, j - 2);
    let distance = spacing(chart, lay, before, j, last.base.pos);
    bonuses(curr, last, last_last, distance, with_slider_travel_dist)
}

// The value at place j, from a part of the record table.
pub fn evaluate_diff_of(
    t: &[f64],
    part: Part,
    chart: &[u8],
    lay: Layout,
    j: usize,
    with_slider_travel_dist: bool,
) -> f64
    requires { Holds chart.now lay × (j < lay.n) × Covers t.now part j }
    ensures { result ≡ aim_at_place (object_of chart.now lay) (part_at t.now part) j with_slider_travel_dist }
{
    parts_of(t, part, chart, lay, j, with_slider_travel_dist).combine(with_slider_travel_dist)
}

// The value in parts at place j of a whole table: the evaluator is lent the middle of it.
pub fn parts_place(
    t: &[f64],
    chart: &[u8],
    lay: Layout,
    j: usize,
    with_slider_travel_dist: bool,
) -> AimParts
    requires { Holds chart.now lay × (1 ≤ j) × (j < lay.n) × (16 * lay.n ≤ length t.now) }
    ensures { result ≡ parts_at_place (object_of chart.now lay) (record_at t.now) j with_slider_travel_dist }
{
    let part = osu_records::part_of(j, lay.n);
    let middle = &t[16 * part.first..16 * (part.last + 1)];
    parts_of(middle, part, chart, lay, j, with_slider_travel_dist)
}

// The parts without sliders at place j of a whole table, of those with sliders: where none of the last two objects is a slider they are the same.
fn parts_without(t: &[f64], chart: &[u8], lay: Layout, j: usize, parts: AimParts) -> AimParts
    requires { Holds chart.now lay × (1 ≤ j) × (j < lay.n) × (16 * lay.n ≤ length t.now)
        × (parts ≡ parts_at_place (object_of chart.now lay) (record_at t.now) j true) }
    ensures { result ≡ parts_at_place (object_of chart.now lay) (record_at t.now) j false }
{
    if j < 2 {
        return parts_place(t, chart, lay, j, false);
    }
    let last = osu_object::base_at(chart, lay, j - 1);
    let last_last = osu_object::base_at(chart, lay, j - 2);
    if last.slider | last_last.slider {
        return parts_place(t, chart, lay, j, false);
    }
    parts
}

// Both values at place j of a whole table: with sliders and without.
pub fn evaluate_both(t: &[f64], chart: &[u8], lay: Layout, j: usize) -> AimValues
    requires { Holds chart.now lay × (1 ≤ j) × (j < lay.n) × (16 * lay.n ≤ length t.now) }
    ensures { (result.with ≡ aim_at_place (object_of chart.now lay) (record_at t.now) j true)
        × (result.without ≡ aim_at_place (object_of chart.now lay) (record_at t.now) j false) }
{
    let parts = parts_place(t, chart, lay, j, true);
    let plain = parts_without(t, chart, lay, j, parts);
    AimValues {
        with: parts.combine(true),
        without: plain.combine(false),
    }
}

// The value at place j of a whole table.
pub fn evaluate_place(
    t: &[f64],
    chart: &[u8],
    lay: Layout,
    j: usize,
    with_slider_travel_dist: bool,
) -> f64
    requires { Holds chart.now lay × (1 ≤ j) × (j < lay.n) × (16 * lay.n ≤ length t.now) }
    ensures { result ≡ aim_at_place (object_of chart.now lay) (record_at t.now) j with_slider_travel_dist }
{
    parts_place(t, chart, lay, j, with_slider_travel_dist).combine(with_slider_travel_dist)
}
