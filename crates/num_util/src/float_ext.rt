// util/float_ext.rs: comparisons with a tolerance, and a mean by weight.
ghost use Rattle.std.specs.Prelude.{◌≡◌};
ghost use Rattle.num_util.specs.FloatExt as FloatExt;

// Whether a and b are f64::EPSILON, 2^-52, apart or less.
#[tactic(auto, unfolding(crate::specs::FloatExt::eq))]
pub fn eq(a: f64, b: f64) -> bool
    ensures { result ≡ FloatExt.eq a b }
{
    num_floats::abs(a - b) <= f64::EPSILON
}

// Whether a and b are f64::EPSILON or more apart.
#[tactic(auto, unfolding(crate::specs::FloatExt::not_eq))]
pub fn not_eq(a: f64, b: f64) -> bool
    ensures { result ≡ FloatExt.not_eq a b }
{
    num_floats::abs(a - b) >= f64::EPSILON
}

// From value1 to value2, by the weight of the second.
#[tactic(auto, unfolding(crate::specs::FloatExt::lerp))]
pub fn lerp(value1: f64, value2: f64, amount: f64) -> f64
    ensures { result ≡ FloatExt.lerp value1 value2 amount }
{
    value1 * (1.0 - amount) + value2 * amount
}
