// skills/strain.rs: the value of a skill's peaks; and flashlight's, their sum.
ghost use Rattle.std.specs.Prelude.{◌≡◌, ◌≤◌, ◌<◌, length, take};
ghost use Rattle.num_floats.specs.Numbers.{zero64, one64};
ghost use Rattle.num_sort.specs.Sort.{AllClear};
ghost use Rattle.skills.specs.Value as value;

use crate::Skill;

// How many of the largest peaks are reduced, and to what share the largest is.
const REDUCED_SECTION_COUNT: usize = 10;

const REDUCED_STRAIN_BASELINE: f64 = 0.75;

// The weight of a peak by that of the next larger one.
pub const DECAY_WEIGHT: f64 = 0.9;

// From start to end by an amount, which 1 brings to the end (skills/strain.rs).
fn lerp(start: f64, end: f64, amount: f64) -> f64
    ensures { result ≡ value.lerp start end amount }
{
    start + (end - start) * amount
}

// i / count, an f32 quotient, held between 0 and 1.
fn clamped(i: usize, count: usize) -> f64
    requires { (i < 65536) × (count < 65536) }
    ensures { result ≡ value.clamped i count }
{
    let quotient = (i as u16 as f32) / (count as u16 as f32);
    num_floats::clamp(num_floats::widen(quotient), 0.0, 1.0)
}

// What the peak at place i of the largest `count` is multiplied by.
fn reduction(i: usize, count: usize) -> f64
    requires { (i < 65536) × (count < 65536) }
    ensures { result ≡ value.reduction i count }
{
    let scale = num_elementary::log10(lerp(1.0, 10.0, clamped(i, count)));
    lerp(REDUCED_STRAIN_BASELINE, 1.0, scale)
}

// The peaks above zero to the front, in their order; returns how many they are.
fn keep_positive(a: &mut [f64]) -> usize
    ensures { (result ≤ length a.old) × (take result a.new ≡ value.positives a.old) }
{
    let mut k = 0;
    for i in 0..a.len() {
        let x = a[i];
        if 0.0 < x {
            a[k] = x;
            k += 1;
        }
    }
    k
}

// Reduces the first `count` peaks.
fn reduce(a: &mut [f64], count: usize)
    requires { count < 65536 }
    ensures { a.new ≡ value.reduced count 0 a.old }
{
    for i in 0..count.min(a.len()) {
        a[i] *= reduction(i, count);
    }
}

// Each peak times its weight, added from 0.
fn weighted_sum(a: &[f64]) -> f64
    ensures { result ≡ value.weighted zero64 one64 a.now }
{
    let mut difficulty = 0.0;
    let mut weight = 1.0;
    for x in a {
        difficulty += x * weight;
        weight *= DECAY_WEIGHT;
    }
    difficulty
}

// All peaks in their order, added from 0.
fn sum(a: &[f64]) -> f64
    ensures { result ≡ value.sum_from zero64 a.now }
{
    a.iter().fold(0.0, |total, x| total + x)
}

// The value of peaks above zero. Reducing disturbs only the first few, so the second sort goes by insertion.
fn value_of_positive(a: &mut [f64], tmp: &mut [f64], count: usize) -> f64
    requires { (AllClear a.old) × (length a.old ≤ length tmp.old) × (count < 65536) }
    ensures { result ≡ value.positive_value count a.old }
{
    num_sort::merge_sort(a, tmp);
    reduce(a, count);
    num_sort::insertion_sort(a);
    weighted_sum(a)
}

// The value of the peaks, `count` of them reduced. What the slices hold afterwards is not said.
fn difficulty_value(peaks: &mut [f64], tmp: &mut [f64], count: usize) -> f64
    requires { (length peaks.old ≤ length tmp.old) × (count < 65536) }
    ensures { result ≡ value.difficulty_value count peaks.old }
{
    let kept = keep_positive(peaks);
    value_of_positive(&mut peaks[..kept], tmp, count)
}

// A skill's value of its peaks. What the slices hold afterwards is not said.
#[tactic(auto, unfolding(crate::specs::Value::difficulty_of))]
pub fn difficulty_of(skill: Skill, peaks: &mut [f64], tmp: &mut [f64]) -> f64
    requires { length peaks.old ≤ length tmp.old }
    ensures { result ≡ value.difficulty_of skill peaks.old }
{
    match skill {
        Skill::Aim | Skill::AimNoSliders => difficulty_value(peaks, tmp, REDUCED_SECTION_COUNT),
        Skill::Speed => difficulty_value(peaks, tmp, crate::speed::REDUCED_SECTION_COUNT),
        Skill::Flashlight => sum(peaks),
    }
}
