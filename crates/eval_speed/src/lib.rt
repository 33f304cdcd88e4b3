// The speed evaluator: evaluators/speed.rs.
#![tactic(auto)]

ghost use Rattle.std.specs.Prelude.{◌≡◌, ◌+◌, ◌*◌, ◌-◌, ◌≤◌, ◌<◌, cond, ltb, length};
ghost use Rattle.std.specs.Option.{is_some, unwrap_or};
ghost use Rattle.osu_records.specs.Rows.{record_at};
ghost use Rattle.chart_fields.specs.Objects.{Holds};
ghost use Rattle.osu_object.specs.Osu.{object_of};
ghost use Rattle.osu_records.specs.Part.{Covers, last_place, part_at};
ghost use Rattle.eval_speed.specs.Speed.{strain_time, speed_bonus, dist_bonus, speed_by, travel_of, speed_at_place};

use chart_fields::Layout;
use osu_difficulty_object::OsuDifficultyObject;
use osu_object::OsuObject;
use osu_records::Part;

// 1.25 circles between centres.
const SINGLE_SPACING_THRESHOLD: f64 = OsuDifficultyObject::NORMALIZED_DIAMETER as f64 * 1.25;

// Beats per minute, four notes to a beat.
const MIN_SPEED_BONUS: f64 = 200.0;

const SPEED_BALANCING_FACTOR: f64 = 40.0;

const DIST_MULTIPLIER: f64 = 0.8;

// The delta time held to the hit window.
#[tactic(auto, unfolding(crate::specs::Speed::strain_time))]
fn strain_time(adjusted: f64, hit_window: f64) -> f64
    ensures { result ≡ strain_time adjusted hit_window }
{
    adjusted / num_floats::clamp(adjusted / hit_window / 0.93, 0.92, 1.0)
}

// What a strain time adds that is shorter than that of 200 beats a minute.
#[tactic(auto, unfolding(crate::specs::Speed::speed_bonus))]
fn speed_bonus(strain_time: f64) -> f64
    ensures { result ≡ speed_bonus strain_time }
{
    if num_util::difficulty::milliseconds_to_bpm(
        strain_time,
        num_util::difficulty::DEFAULT_DELIMITER,
    ) > MIN_SPEED_BONUS
    {
        let least = num_util::difficulty::bpm_to_milliseconds(
            MIN_SPEED_BONUS,
            num_util::difficulty::DEFAULT_DELIMITER,
        );
        let base = (least - strain_time) / SPEED_BALANCING_FACTOR;
        return 0.75 * num_elementary::power(base, 2.0);
    }
    0.0
}

// What the distance adds; 0 under autopilot.
fn dist_bonus(dist: f64, small_circle_bonus: f64, autopilot: bool) -> f64
    ensures { result ≡ dist_bonus dist small_circle_bonus autopilot }
{
    if autopilot {
        return 0.0;
    }
    let dist = num_floats::min(SINGLE_SPACING_THRESHOLD, dist);
    let bonus = num_elementary::power(dist / SINGLE_SPACING_THRESHOLD, 3.95) * DIST_MULTIPLIER;
    bonus * num_roots::root(small_circle_bonus)
}

// The value of a record, with the travel distance of the one before it and the next record where there is one.
#[tactic(auto, unfolding(crate::specs::Speed::speed_by))]
fn evaluate(
    curr: OsuDifficultyObject,
    travel_dist: f64,
    next: Option<OsuDifficultyObject>,
    spinner: bool,
    hit_window: f64,
    autopilot: bool,
) -> f64
    ensures { result ≡ speed_by curr travel_dist (is_some next) (unwrap_or next curr) spinner hit_window autopilot }
{
    if spinner {
        return 0.0;
    }
    let strain_time = strain_time(curr.adjusted_delta_time, hit_window);
    let doubletapness = 1.0 - curr.get_doubletapness(spinner, next, hit_window);
    let speed_bonus = speed_bonus(strain_time);
    let dist = travel_dist + curr.min_jump_dist;
    let dist_bonus = dist_bonus(dist, curr.small_circle_bonus, autopilot);
    let difficulty = (1.0 + speed_bonus + dist_bonus) * 1000.0 / strain_time;
    difficulty * doubletapness
}

// The travel distance of the record before place j, 0 where there is none.
fn travel_before(t: &[f64], part: Part, j: usize) -> f64
    requires { (j < 65536) × Covers t.now part j }
    ensures { result ≡ travel_of (j - 1) (part_at t.now part (j - 1)) }
{
    if 0 < j - 1 {
        let before = osu_records::record_at(t, j - 1 - part.first);
        return before.travel_dist;
    }
    0.0
}

// The record after place j, where the part reaches it.
fn next_of(t: &[f64], part: Part, j: usize) -> Option<OsuDifficultyObject>
    requires { Covers t.now part j }
    ensures { result ≡ cond (ltb j part.last) (Some (part_at t.now part (j + 1))) None }
{
    if j < part.last {
        return Some(osu_records::record_at(t, j + 1 - part.first));
    }
    None
}

// The value at place j, from a part of the record table.
pub fn evaluate_diff_of(
    t: &[f64],
    part: Part,
    chart: &[u8],
    lay: Layout,
    j: usize,
    hit_window: f64,
    autopilot: bool,
) -> f64
    requires { Holds chart.now lay × (j < lay.n) × Covers t.now part j }
    ensures { result ≡ speed_at_place (object_of chart.now lay) (part_at t.now part) part.last j hit_window autopilot }
{
    let base = OsuObject::new(chart_fields::fields_of(chart, lay, j));
    evaluate(
        osu_records::record_at(t, j - part.first),
        travel_before(t, part, j),
        next_of(t, part, j),
        base.is_spinner(),
        hit_window,
        autopilot,
    )
}

// The value at place j of a whole table: the evaluator is lent the middle of it.
pub fn evaluate_place(
    t: &[f64],
    chart: &[u8],
    lay: Layout,
    j: usize,
    hit_window: f64,
    autopilot: bool,
) -> f64
    requires { Holds chart.now lay × (1 ≤ j) × (j < lay.n) × (16 * lay.n ≤ length t.now) }
    ensures { result
        ≡ speed_at_place (object_of chart.now lay) (record_at t.now) (last_place j lay.n) j hit_window autopilot }
{
    let part = osu_records::part_of(j, lay.n);
    let middle = &t[16 * part.first..16 * (part.last + 1)];
    evaluate_diff_of(middle, part, chart, lay, j, hit_window, autopilot)
}
