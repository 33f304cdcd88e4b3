// The rules' functions on numbers under C names, for other makers. Each answers for every argument.
#![tactic(auto)]

ghost use Rattle.std.specs.Prelude.{◌≡◌};
ghost use Rattle.std.specs.Float.{binary32, binary64};
ghost use Rattle.num_roots.specs.Root.{root_of};
ghost use Rattle.num_elementary.specs.Two.{two_of};
ghost use Rattle.num_elementary.specs.Power.{log_total, power_of, exp_of, log10_of};
ghost use Rattle.num_angle.specs.Float.{angle_of};

// Log: the binary logarithm times 2^40, a whole number.
#[unsafe(no_mangle)]
pub extern "C" fn numbers_log(b: f64) -> f64
    ensures { result ≡ log_total b }
{
    num_elementary::log(b)
}

// Two: 2^(p / 2^40).
#[unsafe(no_mangle)]
pub extern "C" fn numbers_two(p: f64) -> f64
    ensures { result ≡ two_of p }
{
    num_elementary::two(p)
}

// Power: b raised to e.
#[unsafe(no_mangle)]
pub extern "C" fn numbers_power(b: f64, e: f64) -> f64
    ensures { result ≡ power_of b e }
{
    num_elementary::power(b, e)
}

// exp.
#[unsafe(no_mangle)]
pub extern "C" fn numbers_exp(x: f64) -> f64
    ensures { result ≡ exp_of x }
{
    num_elementary::exp(x)
}

// log10.
#[unsafe(no_mangle)]
pub extern "C" fn numbers_log10(b: f64) -> f64
    ensures { result ≡ log10_of b }
{
    num_elementary::log10(b)
}

// Angle of (dot, det), from 0 to PI.
#[unsafe(no_mangle)]
pub extern "C" fn numbers_angle(dot: f64, det: f64) -> f64
    ensures { result ≡ angle_of dot det }
{
    num_angle::angle(dot, det)
}

// The square root of an f64.
#[unsafe(no_mangle)]
pub extern "C" fn numbers_root64(x: f64) -> f64
    ensures { result ≡ root_of binary64 x }
{
    num_roots::root(x)
}

// The square root of an f32.
#[unsafe(no_mangle)]
pub extern "C" fn numbers_root32(x: f32) -> f32
    ensures { result ≡ root_of binary32 x }
{
    num_roots::root(x)
}
