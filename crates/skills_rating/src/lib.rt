// The aim, speed and flashlight ratings of a chart's totals: osu/difficulty/rating.rs.
#![tactic(auto)]

ghost use Rattle.std.specs.Prelude.{◌≡◌, ◌-◌, cond};
ghost use Rattle.skills_rating.specs.Rating as Rating;

mod mods;

pub use mods::Mods;
use mods::scaled_if;

pub const DIFFICULTY_MULTIPLIER: f64 = 0.0675;

// The f64 nearest to one third.
const THIRD: f64 = 0.3333333333333333;

// Above this approach rate objects show late.
const HIGH_RATE: f64 = 10.33;

// Objects of a long chart, and of a short one.
const LONG: u32 = 2000;

const SHORT: u32 = 200;

const AR_FACTOR_END_POINT: f64 = 11.5;

// What the ratings of a chart go by, beside its totals.
#[derive(Clone, Copy)]
pub struct OsuRatingCalculator {
    mods: Mods,
    total_hits: u32,
    approach_rate: f64,
    overall_difficulty: f64,
    mechanical_difficulty_rating: f64,
    slider_factor: f64,
}

// The cube root of a number from 0 on.
pub fn cbrt(x: f64) -> f64
    ensures { result ≡ Rating.cbrt_of x }
{
    num_elementary::power(x, THIRD)
}

// 1 for more objects than `most`, else 0.
fn above(total_hits: u32, most: u32) -> f64
    ensures { result ≡ Rating.above total_hits most }
{
    if most < total_hits { 1.0 } else { 0.0 }
}

// The objects past those of a short chart.
fn past_short(total_hits: u32) -> u32
    ensures { result ≡ total_hits - 200 }
{
    total_hits.saturating_sub(SHORT)
}

// How much the approach rate's factor counts for a chart of this length. The logarithm of no objects is NaN, and so is the bonus.
fn ar_length_bonus(total_hits: u32) -> f64
    ensures { result ≡ Rating.ar_length_bonus total_hits }
{
    let share = total_hits as f64 / 2000.0;
    let short = 0.4 * num_floats::min(share, 1.0);
    0.95 + short + above(total_hits, LONG) * num_elementary::log10(share) * 0.5
}

// Less flashlight in a short chart.
fn length_factor(total_hits: u32) -> f64
    ensures { result ≡ Rating.length_factor total_hits }
{
    let short = 0.1 * num_floats::min(total_hits as f64 / 200.0, 1.0);
    let more = num_floats::min(past_short(total_hits) as f64 / 200.0, 1.0);
    0.7 + short + above(total_hits, SHORT) * 0.2 * more
}

// Aim's factor of the approach rate, high or low.
fn aim_ar_factor(relax: bool, approach_rate: f64) -> f64
    ensures { result ≡ Rating.aim_ar_factor relax approach_rate }
{
    if relax {
        return 0.0;
    }
    if approach_rate > HIGH_RATE {
        return 0.3 * (approach_rate - HIGH_RATE);
    }
    if approach_rate < 8.0 {
        return 0.05 * (8.0 - approach_rate);
    }
    0.0
}

// Speed's factor of a high approach rate.
fn speed_ar_factor(autopilot: bool, approach_rate: f64) -> f64
    ensures { result ≡ Rating.speed_ar_factor autopilot approach_rate }
{
    if autopilot {
        return 0.0;
    }
    if approach_rate > HIGH_RATE {
        return 0.3 * (approach_rate - HIGH_RATE);
    }
    0.0
}

// The factor of the overall difficulty.
fn accuracy_factor(base: f64, scale: f64, overall_difficulty: f64) -> f64
    ensures { result ≡ Rating.accuracy_factor base scale overall_difficulty }
{
    base + num_elementary::power(num_floats::max(overall_difficulty, 0.0), 2.0) / scale
}

// The one number where objects stay visible in part, else the other.
fn either(visible: bool, in_part: f64, hidden: f64) -> f64
    ensures { result ≡ cond visible in_part hidden }
{
    if visible { in_part } else { hidden }
}

// The bonus with what approach rates below 7 add.
fn below_slow(bonus: f64, approach_rate: f64, visible: bool, slider: f64) -> f64
    ensures { result ≡ Rating.below_slow bonus approach_rate visible slider }
{
    if approach_rate < 7.0 {
        let slow = 7.0 - num_floats::max(approach_rate, 0.0);
        return bonus + either(visible, 0.03, 0.045) * slow * slider;
    }
    bonus
}

// The bonus with what approach rates below 0 add, which is bounded.
fn below_zero(bonus: f64, approach_rate: f64, visible: bool, slider: f64) -> f64
    ensures { result ≡ Rating.below_zero bonus approach_rate visible slider }
{
    if approach_rate < 0.0 {
        let still = 1.0 - num_elementary::power(1.5, approach_rate);
        return bonus + either(visible, 0.075, 0.1) * still * slider;
    }
    bonus
}

// From 0 at the end point to 1 at the starting point, which is later for a chart that is hard to play.
fn visibility_factor(start: f64, mechanical_difficulty_rating: f64, approach_rate: f64) -> f64
    ensures { result ≡ Rating.visibility_factor start mechanical_difficulty_rating approach_rate }
{
    let mechanical = num_util::difficulty::reverse_lerp(mechanical_difficulty_rating, 5.0, 10.0);
    let starting_point = num_util::float_ext::lerp(start, HIGH_RATE, mechanical);
    num_util::difficulty::reverse_lerp(approach_rate, AR_FACTOR_END_POINT, starting_point)
}

impl OsuRatingCalculator {
    // The calculator of a chart with so many objects.
    pub fn new(
        mods: Mods,
        total_hits: u32,
        approach_rate: f64,
        overall_difficulty: f64,
        mechanical_difficulty_rating: f64,
        slider_factor: f64,
    ) -> Self
        ensures { result ≡ Rating.new_calculator mods total_hits approach_rate overall_difficulty mechanical_difficulty_rating slider_factor }
    {
        Self {
            mods,
            total_hits,
            approach_rate,
            overall_difficulty,
            mechanical_difficulty_rating,
            slider_factor,
        }
    }

    // The rating before any mod.
    pub fn calculate_difficulty_rating(difficulty_value: f64) -> f64
        ensures { result ≡ Rating.calculate_difficulty_rating difficulty_value }
    {
        num_roots::root(difficulty_value) * DIFFICULTY_MULTIPLIER
    }

    // How much of hidden's bonus aim gets at this approach rate.
    pub fn calculate_aim_visibility_factor(
        mechanical_difficulty_rating: f64,
        approach_rate: f64,
    ) -> f64
        ensures { result ≡ Rating.calculate_aim_visibility_factor mechanical_difficulty_rating approach_rate }
    {
        visibility_factor(9.0, mechanical_difficulty_rating, approach_rate)
    }

    // How much of hidden's bonus speed gets at this approach rate.
    pub fn calculate_speed_visibility_factor(
        mechanical_difficulty_rating: f64,
        approach_rate: f64,
    ) -> f64
        ensures { result ≡ Rating.calculate_speed_visibility_factor mechanical_difficulty_rating approach_rate }
    {
        visibility_factor(10.0, mechanical_difficulty_rating, approach_rate)
    }

    // What hidden adds to a multiplier. A slider factor that the Rust leaves out is 1.
    pub fn calculate_visibility_bonus(
        mods: Mods,
        approach_rate: f64,
        visibility_factor: f64,
        slider_factor: f64,
    ) -> f64
        ensures { result ≡ Rating.calculate_visibility_bonus mods approach_rate visibility_factor slider_factor }
    {
        let visible = mods.fade_only | mods.traceable;
        let slider = num_elementary::power(slider_factor, 3.0);
        let reading = 0.04 * (12.0 - num_floats::max(approach_rate, 7.0)) * visibility_factor;
        let slow = below_slow(reading, approach_rate, visible, slider);
        below_zero(slow, approach_rate, visible, slider)
    }

    // Whose cube root the aim rating is multiplied by.
    fn aim_multiplier(self) -> f64
        ensures { result ≡ Rating.aim_multiplier self }
    {
        let mods = self.mods;
        let rate = self.approach_rate;
        let plain = 1.0 + aim_ar_factor(mods.relax, rate) * ar_length_bonus(self.total_hits);
        let accuracy = accuracy_factor(0.98, 2500.0, self.overall_difficulty);
        if mods.hidden {
            let factor = Self::calculate_aim_visibility_factor(
                self.mechanical_difficulty_rating,
                rate,
            );
            let bonus = Self::calculate_visibility_bonus(mods, rate, factor, self.slider_factor);
            return (plain + bonus) * accuracy;
        }
        plain * accuracy
    }

    // Whose cube root the speed rating is multiplied by.
    fn speed_multiplier(self) -> f64
        ensures { result ≡ Rating.speed_multiplier self }
    {
        let mods = self.mods;
        let rate = self.approach_rate;
        let plain = 1.0 + speed_ar_factor(mods.autopilot, rate) * ar_length_bonus(self.total_hits);
        let accuracy = accuracy_factor(0.95, 750.0, self.overall_difficulty);
        if mods.hidden {
            let factor = Self::calculate_speed_visibility_factor(
                self.mechanical_difficulty_rating,
                rate,
            );
            let bonus = Self::calculate_visibility_bonus(mods, rate, factor, 1.0);
            return (plain + bonus) * accuracy;
        }
        plain * accuracy
    }

    // Whose square root the flashlight rating is multiplied by.
    fn flashlight_multiplier(self) -> f64
        ensures { result ≡ Rating.flashlight_multiplier self }
    {
        let accuracy = accuracy_factor(0.98, 2500.0, self.overall_difficulty);
        1.0 * length_factor(self.total_hits) * accuracy
    }

    // The aim rating of a total, 0 under autopilot.
    pub fn compute_aim_rating(self, aim_difficulty_value: f64) -> f64
        ensures { result ≡ Rating.compute_aim_rating self aim_difficulty_value }
    {
        let mods = self.mods;
        if mods.autopilot {
            return 0.0;
        }
        let rating = Self::calculate_difficulty_rating(aim_difficulty_value);
        let relaxed = scaled_if(mods.relax, 0.9, mods.touched(rating));
        mods.attracted(relaxed) * cbrt(self.aim_multiplier())
    }

    // The speed rating of a total, 0 under relax.
    pub fn compute_speed_rating(self, speed_difficulty_value: f64) -> f64
        ensures { result ≡ Rating.compute_speed_rating self speed_difficulty_value }
    {
        let mods = self.mods;
        if mods.relax {
            return 0.0;
        }
        let rating = Self::calculate_difficulty_rating(speed_difficulty_value);
        let piloted = scaled_if(mods.autopilot, 0.5, rating);
        mods.speed_attracted(piloted) * cbrt(self.speed_multiplier())
    }

    // The flashlight rating of a total, 0 without the mod.
    pub fn compute_flashlight_rating(self, flashlight_difficulty_value: f64) -> f64
        ensures { result ≡ Rating.compute_flashlight_rating self flashlight_difficulty_value }
    {
        let mods = self.mods;
        if !mods.flashlight {
            return 0.0;
        }
        let rating = Self::calculate_difficulty_rating(flashlight_difficulty_value);
        let helped = mods.helped(mods.touched(rating));
        mods.deflated(mods.attracted(helped)) * num_roots::root(self.flashlight_multiplier())
    }
}
