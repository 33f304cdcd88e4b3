// any/difficulty/skills.rs: strains weighted by the top strain.
ghost use Rattle.std.specs.Prelude.{◌≡◌};
ghost use Rattle.skills.specs.Chart.{Readable};
ghost use Rattle.skills_counts.specs.Lists as Lists;
ghost use Rattle.skills_counts.specs.Chart.{object_strains};

use crate::fold::{Objects, fold};
use chart_fields::Layout;
use skills::Skill;

// What a strain counts beside the top strain; the numbers are the Rust's.
pub fn weight(strain: f64, consistent_top_strain: f64) -> f64
    ensures { result ≡ Lists.weight strain consistent_top_strain }
{
    1.1 / (1.0 + num_elementary::exp(-10.0 * (strain / consistent_top_strain - 0.88)))
}

// How many strains are near what the top strain would be if all were the same; all of them where it would be 0.
pub fn count_top_weighted_strains(
    chart: &[u8],
    lay: Layout,
    clock: f64,
    values: &[f64],
    skill: Skill,
    difficulty_value: f64,
) -> f64
    requires { Readable chart.now lay values.now }
    ensures { result
        ≡ Lists.count_top_weighted_strains (object_strains chart.now lay clock values.now skill) difficulty_value }
{
    if lay.n < 2 {
        return 0.0;
    }
    let top = difficulty_value / 10.0;
    if num_util::float_ext::eq(top, 0.0) {
        return (lay.n - 1) as u32 as f64;
    }
    let add = |to: f64, strain| to + weight(strain, top);
    fold(chart, lay, clock, values, skill, Objects::All, 0.0, add)
}
