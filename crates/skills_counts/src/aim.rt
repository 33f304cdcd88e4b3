// skills/aim.rs: the difficult sliders.
ghost use Rattle.std.specs.Prelude.{◌≡◌};
ghost use Rattle.skills.specs.Chart.{Readable};
ghost use Rattle.skills_counts.specs.Lists as Lists;
ghost use Rattle.skills_counts.specs.Chart.{slider_strains};

use crate::fold::{Objects, fold};
use chart_fields::Layout;
use skills::Skill;

// What a strain counts beside the largest; the numbers are the Rust's. speed.rs has the same.
pub fn share(strain: f64, max_strain: f64) -> f64
    ensures { result ≡ Lists.share strain max_strain }
{
    1.0 / (1.0 + num_elementary::exp(-(strain / max_strain * 12.0 - 6.0)))
}

// How many sliders' strains are near the largest of them; none where that is 0.
pub fn get_difficult_sliders(chart: &[u8], lay: Layout, clock: f64, values: &[f64]) -> f64
    requires { Readable chart.now lay values.now }
    ensures { result ≡ Lists.get_difficult_sliders (slider_strains chart.now lay clock values.now Skill.Aim) }
{
    let sliders = Objects::Sliders;
    let max = fold(
        chart,
        lay,
        clock,
        values,
        Skill::Aim,
        sliders,
        0.0,
        num_floats::max,
    );
    if num_util::float_ext::eq(max, 0.0) {
        return 0.0;
    }
    let add = |to: f64, strain| to + share(strain, max);
    fold(chart, lay, clock, values, Skill::Aim, sliders, 0.0, add)
}
