// skills/speed.rs: the relevant notes.
ghost use Rattle.std.specs.Prelude.{◌≡◌};
ghost use Rattle.skills.specs.Chart.{Readable};
ghost use Rattle.skills_counts.specs.Lists as Lists;
ghost use Rattle.skills_counts.specs.Chart.{object_strains};

use crate::fold::{Objects, fold};
use chart_fields::Layout;
use num_floats::Binary;
use skills::Skill;

// A number that grows with x by f64::total_cmp.
fn total_key(x: f64) -> u64
    ensures { result ≡ Lists.total_key x }
{
    let b = x.bits();
    if b < f64::SIGN {
        return b + f64::SIGN;
    }
    0xFFFF_FFFF_FFFF_FFFF - b
}

// The larger of two by f64::total_cmp, in which NaN is above all numbers.
pub fn total_max(a: f64, b: f64) -> f64
    ensures { result ≡ Lists.total_max a b }
{
    if total_key(b) < total_key(a) { a } else { b }
}

// How many strains are near the largest of them; none where that is not above 0.
pub fn relevant_note_count(chart: &[u8], lay: Layout, clock: f64, values: &[f64]) -> f64
    requires { Readable chart.now lay values.now }
    ensures { result ≡ Lists.relevant_note_count (object_strains chart.now lay clock values.now Skill.Speed) }
{
    if lay.n < 2 {
        return 0.0;
    }
    let all = Objects::All;
    let first = crate::fold::first_strain(chart, lay, clock, values, Skill::Speed);
    let max = fold(
        chart,
        lay,
        clock,
        values,
        Skill::Speed,
        all,
        first,
        total_max,
    );
    if max > 0.0 {
        let add = |to: f64, strain| to + crate::aim::share(strain, max);
        return fold(chart, lay, clock, values, Skill::Speed, all, 0.0, add);
    }
    0.0
}
