// The counts of a chart: how many objects carry it. The sums run over strains in place order; the strains do not fit the scratch, so each sum works them
// out anew.
#![tactic(auto)]

ghost use Rattle.std.specs.Prelude.{◌≡◌, ◌≤◌, length, replicate};
ghost use Rattle.num_floats.specs.Numbers.{zero64};
ghost use Rattle.skills.specs.Chart.{Readable, Roomy};
ghost use Rattle.skills_counts.specs.Chart.{counts_by, counts_of};

mod aim;
mod any_skills;
mod fold;
mod speed;
mod strain;

use aim::get_difficult_sliders;
use any_skills::count_top_weighted_strains;
use chart_fields::Layout;
use skills::{Skill, Skills};
use speed::relevant_note_count;
use strain::count_top_weighted_sliders;

// The counts, under the names of osu/difficulty/mod.rs.
#[derive(Clone, Copy)]
pub struct ObjectCounts {
    pub aim_difficult_strain_count: f64,
    pub aim_no_sliders_difficult_strain_count: f64,
    pub speed_difficult_strain_count: f64,
    pub aim_no_sliders_top_weighted_slider_count: f64,
    pub speed_top_weighted_slider_count: f64,
    pub aim_difficult_slider_count: f64,
    pub speed_note_count: f64,
}

// The counts by the skills' difficulty values.
fn counts_by(chart: &[u8], lay: Layout, clock: f64, values: &[f64], by: Skills) -> ObjectCounts
    requires { Readable chart.now lay values.now }
    ensures { result ≡ counts_by chart.now lay clock values.now by }
{
    let no_sliders = by.aim_no_sliders;
    let a = count_top_weighted_strains(chart, lay, clock, values, Skill::Aim, by.aim);
    let b = count_top_weighted_strains(chart, lay, clock, values, Skill::AimNoSliders, no_sliders);
    let c = count_top_weighted_strains(chart, lay, clock, values, Skill::Speed, by.speed);
    let d = count_top_weighted_sliders(chart, lay, clock, values, Skill::AimNoSliders, no_sliders);
    let e = count_top_weighted_sliders(chart, lay, clock, values, Skill::Speed, by.speed);
    let f = get_difficult_sliders(chart, lay, clock, values);
    let g = relevant_note_count(chart, lay, clock, values);
    ObjectCounts {
        aim_difficult_strain_count: a,
        aim_no_sliders_difficult_strain_count: b,
        speed_difficult_strain_count: c,
        aim_no_sliders_top_weighted_slider_count: d,
        speed_top_weighted_slider_count: e,
        aim_difficult_slider_count: f,
        speed_note_count: g,
    }
}

// The counts of a chart. All scratch is 0 afterwards, for charts of 0 and 1 objects too.
pub fn counts(
    chart: &[u8],
    lay: Layout,
    clock: f64,
    values: &[f64],
    aim: &mut [f64],
    aim_no_sliders: &mut [f64],
    speed: &mut [f64],
    flashlight: &mut [f64],
) -> ObjectCounts
    requires { (Readable chart.now lay values.now)
        × (Roomy aim.old) × (Roomy aim_no_sliders.old) × (Roomy speed.old) × (Roomy flashlight.old) }
    ensures result { result ≡ counts_of chart.now lay clock values.now }
    ensures first { aim.new ≡ replicate (length aim.old) zero64 }
    ensures second { aim_no_sliders.new ≡ replicate (length aim_no_sliders.old) zero64 }
    ensures third { speed.new ≡ replicate (length speed.old) zero64 }
    ensures fourth { flashlight.new ≡ replicate (length flashlight.old) zero64 }
{
    let totals = skills::totals(
        chart,
        lay,
        clock,
        values,
        aim,
        aim_no_sliders,
        speed,
        flashlight,
    );
    counts_by(chart, lay, clock, values, totals)
}
