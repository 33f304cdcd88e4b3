// util/difficulty.rs, as far as the evaluators use it. A delimiter is a number; where the Rust's is left out it is `DEFAULT_DELIMITER`.
ghost use Rattle.std.specs.Prelude.{◌≡◌};
ghost use Rattle.num_util.specs.Difficulty as Difficulty;

// In milliseconds.
const MINUTE: f64 = 60000.0;

// Parts of a beat.
pub const DEFAULT_DELIMITER: f64 = 4.0;

// The length of a part of a beat in milliseconds.
#[tactic(auto, unfolding(crate::specs::Difficulty::bpm_to_milliseconds))]
pub fn bpm_to_milliseconds(bpm: f64, delimiter: f64) -> f64
    ensures { result ≡ Difficulty.bpm_to_milliseconds bpm delimiter }
{
    MINUTE / delimiter / bpm
}

// The beats per minute of a part of a beat that lasts so long.
#[tactic(auto, unfolding(crate::specs::Difficulty::milliseconds_to_bpm))]
pub fn milliseconds_to_bpm(ms: f64, delimiter: f64) -> f64
    ensures { result ≡ Difficulty.milliseconds_to_bpm ms delimiter }
{
    MINUTE / (ms * delimiter)
}

// From 0 to max_value, half of it at the midpoint.
#[tactic(auto, unfolding(crate::specs::Difficulty::logistic))]
pub fn logistic(x: f64, midpoint_offset: f64, multiplier: f64, max_value: f64) -> f64
    ensures { result ≡ Difficulty.logistic x midpoint_offset multiplier max_value }
{
    max_value / (1.0 + num_elementary::exp(multiplier * (midpoint_offset - x)))
}

// How far x is on the way from start to end, from 0 to 1.
#[tactic(auto, unfolding(crate::specs::Difficulty::reverse_lerp))]
pub fn reverse_lerp(x: f64, start: f64, end: f64) -> f64
    ensures { result ≡ Difficulty.reverse_lerp x start end }
{
    num_floats::clamp((x - start) / (end - start), 0.0, 1.0)
}

// 0 up to start, 1 from end on, and a smooth step between.
#[tactic(auto, unfolding(crate::specs::Difficulty::smoothstep))]
pub fn smoothstep(x: f64, start: f64, end: f64) -> f64
    ensures { result ≡ Difficulty.smoothstep x start end }
{
    let x = reverse_lerp(x, start, end);
    x * x * (3.0 - 2.0 * x)
}

// The same with a step that is smoother at both ends.
#[tactic(auto, unfolding(crate::specs::Difficulty::smootherstep))]
pub fn smootherstep(x: f64, start: f64, end: f64) -> f64
    ensures { result ≡ Difficulty.smootherstep x start end }
{
    let x = reverse_lerp(x, start, end);
    x * x * x * (x * (6.0 * x - 15.0) + 10.0)
}

// How far the distance y from the mean is from the width, on either side.
#[tactic(auto, unfolding(crate::specs::Difficulty::from_the_width))]
fn from_the_width(y: f64, width: f64) -> f64
    ensures { result ≡ Difficulty.from_the_width y width }
{
    if y > 0.0 { width - y } else { width + y }
}

// 1 at the mean, falling to 0 over the width on both sides.
#[tactic(auto, unfolding(crate::specs::Difficulty::smoothstep_bell_curve))]
pub fn smoothstep_bell_curve(x: f64, mean: f64, width: f64) -> f64
    ensures { result ≡ Difficulty.smoothstep_bell_curve x mean width }
{
    smoothstep(from_the_width(x - mean, width), 0.0, width)
}
