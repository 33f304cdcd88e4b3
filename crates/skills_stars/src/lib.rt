// The ratings and the stars of a chart's totals: what osu/difficulty/mod.rs makes of them, with the performances of skills/strain.rs and skills/flashlight.rs.
#![tactic(auto)]

ghost use Rattle.std.specs.Prelude.{◌≡◌};
ghost use Rattle.skills_stars.specs.Stars as Stars;

use skills::Skills;
use skills_rating::{Mods, OsuRatingCalculator};

const STAR_RATING_MULTIPLIER: f64 = 0.0265;

// Performances are joined by sums of this power, and taken back by its inverse.
const JOINING_POWER: f64 = 1.1;

// What comes with the call. The base multiplier is the Rust's PERFORMANCE_BASE_MULTIPLIER.
#[derive(Clone, Copy)]
pub struct Asked {
    pub mods: Mods,
    pub approach_rate: f64,
    pub overall_difficulty: f64,
    pub base_multiplier: f64,
}

// Whether a number that may be absent is finite where it is given.
#[tactic(auto, unfolding(crate::specs::Stars::finite_if))]
fn finite_if(x: Option<f64>) -> bool
    ensures { result ≡ Stars.finite_if x }
{
    match x {
        Some(x) => num_floats::is_finite(x),
        None => true,
    }
}

impl Asked {
    // Whether all numbers that are given are finite.
    pub fn is_finite(self) -> bool
        ensures { result ≡ Stars.finite_asked self }
    {
        let mods = self.mods;
        num_floats::is_finite(self.approach_rate)
            & num_floats::is_finite(self.overall_difficulty)
            & num_floats::is_finite(self.base_multiplier)
            & finite_if(mods.attraction)
            & finite_if(mods.start_scale)
    }
}

// The answer.
#[derive(Clone, Copy)]
pub struct Ratings {
    pub aim: f64,
    pub speed: f64,
    pub flashlight: f64,
    pub stars: f64,
}

// The performance of an aim or speed rating, at least that of a rating of 0.0675; a NaN counts as that.
pub fn difficulty_to_performance(difficulty: f64) -> f64
    ensures { result ≡ Stars.difficulty_to_performance difficulty }
{
    let rating = num_floats::max(1.0, difficulty / skills_rating::DIFFICULTY_MULTIPLIER);
    num_elementary::power(5.0 * rating - 4.0, 3.0) / 100000.0
}

// The performance of a flashlight rating.
pub fn flashlight_to_performance(difficulty: f64) -> f64
    ensures { result ≡ Stars.flashlight_to_performance difficulty }
{
    25.0 * num_elementary::power(difficulty, 2.0)
}

// The stars of a performance; a NaN has NaN stars.
pub fn calculate_star_rating(base_performance: f64, base_multiplier: f64) -> f64
    ensures { result ≡ Stars.calculate_star_rating base_performance base_multiplier }
{
    if base_performance <= 0.00001 {
        return 0.0;
    }
    let scale = 100000.0 / num_elementary::power(2.0, 1.0 / JOINING_POWER);
    let root = skills_rating::cbrt(scale * base_performance);
    skills_rating::cbrt(base_multiplier) * STAR_RATING_MULTIPLIER * (root + 4.0)
}

// The stars of the aim and speed totals without any mod.
pub fn calculate_mechanical_difficulty_rating(
    aim_difficulty_value: f64,
    speed_difficulty_value: f64,
    base_multiplier: f64,
) -> f64
    ensures { result
        ≡ Stars.calculate_mechanical_difficulty_rating aim_difficulty_value speed_difficulty_value base_multiplier }
{
    let aim = difficulty_to_performance(OsuRatingCalculator::calculate_difficulty_rating(
        aim_difficulty_value,
    ));
    let speed = difficulty_to_performance(OsuRatingCalculator::calculate_difficulty_rating(
        speed_difficulty_value,
    ));
    let joined = num_elementary::power(aim, JOINING_POWER)
        + num_elementary::power(speed, JOINING_POWER);
    calculate_star_rating(
        num_elementary::power(joined, 1.0 / JOINING_POWER),
        base_multiplier,
    )
}

// How much of the aim rating stays without sliders; 1 where there is no aim.
fn slider_factor(aim: f64, aim_no_sliders: f64) -> f64
    ensures { result ≡ Stars.slider_factor aim aim_no_sliders }
{
    if aim > 0.0 {
        return OsuRatingCalculator::calculate_difficulty_rating(aim_no_sliders)
            / OsuRatingCalculator::calculate_difficulty_rating(aim);
    }
    1.0
}

// The performance of the three ratings together.
fn base_performance(aim: f64, speed: f64, flashlight: f64) -> f64
    ensures { result ≡ Stars.base_performance aim speed flashlight }
{
    let aim = num_elementary::power(difficulty_to_performance(aim), JOINING_POWER);
    let speed = num_elementary::power(difficulty_to_performance(speed), JOINING_POWER);
    let flashlight = num_elementary::power(flashlight_to_performance(flashlight), JOINING_POWER);
    num_elementary::power(aim + speed + flashlight, 1.0 / JOINING_POWER)
}

// The calculator of a chart's totals and its number of objects.
fn calculator_of(totals: Skills, n: u32, asked: Asked) -> OsuRatingCalculator
    ensures { result ≡ Stars.calculator_of totals n asked }
{
    let mods = asked.mods;
    let mechanical = calculate_mechanical_difficulty_rating(
        totals.aim,
        totals.speed,
        asked.base_multiplier,
    );
    OsuRatingCalculator::new(
        mods,
        n,
        asked.approach_rate,
        asked.overall_difficulty,
        mechanical,
        slider_factor(totals.aim, totals.aim_no_sliders),
    )
}

// The ratings and the stars of the totals of a chart with n objects, as far as the Rust's `eval` works them out.
pub fn eval(totals: Skills, n: u32, asked: Asked) -> Ratings
    ensures { result ≡ Stars.ratings_of totals n asked }
{
    let by = calculator_of(totals, n, asked);
    let aim = by.compute_aim_rating(totals.aim);
    let speed = by.compute_speed_rating(totals.speed);
    let flashlight = by.compute_flashlight_rating(totals.flashlight);
    let performance = base_performance(aim, speed, flashlight);
    let stars = calculate_star_rating(performance, asked.base_multiplier);
    Ratings {
        aim,
        speed,
        flashlight,
        stars,
    }
}
