// skills/strain.rs: sliders' strains weighted by the top strain.
ghost use Rattle.std.specs.Prelude.{◌≡◌};
ghost use Rattle.skills.specs.Chart.{Readable};
ghost use Rattle.skills_counts.specs.Lists as Lists;
ghost use Rattle.skills_counts.specs.Chart.{slider_strains};

use crate::fold::{Objects, fold};
use chart_fields::Layout;
use skills::Skill;

// What a slider's strain counts beside the top strain; the numbers are the Rust's.
pub fn weight(strain: f64, consistent_top_strain: f64) -> f64
    ensures { result ≡ Lists.slider_weight strain consistent_top_strain }
{
    num_util::difficulty::logistic(strain / consistent_top_strain, 0.88, 10.0, 1.1)
}

// How many sliders' strains are near what the top strain would be if all were the same; none where it would be 0.
pub fn count_top_weighted_sliders(
    chart: &[u8],
    lay: Layout,
    clock: f64,
    values: &[f64],
    skill: Skill,
    difficulty_value: f64,
) -> f64
    requires { Readable chart.now lay values.now }
    ensures { result
        ≡ Lists.count_top_weighted_sliders (slider_strains chart.now lay clock values.now skill) difficulty_value }
{
    let top = difficulty_value / 10.0;
    if num_util::float_ext::eq(top, 0.0) {
        return 0.0;
    }
    let add = |to: f64, strain| to + weight(strain, top);
    fold(chart, lay, clock, values, skill, Objects::Sliders, 0.0, add)
}
