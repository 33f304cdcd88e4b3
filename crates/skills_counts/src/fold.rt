// A number that the strains of a skill are joined to, one after the other in place order: the sums and the largest strains of the Rust's iterators.
ghost use Rattle.std.specs.Prelude.{◌≡◌, ◌-◌, ◌≤◌, ◌<◌};
ghost use Rattle.std.specs.List.{FoldsTo};
ghost use Rattle.chart_fields.specs.Objects.{Holds};
ghost use Rattle.skills.specs.Chart.{Readable};
ghost use Rattle.skills_counts.specs.Chart.{slider_at};
ghost use Rattle.skills_counts.specs.Fold.{keeps_of, place_zero, place_next, strain_of, strains_of};

use chart_fields::Layout;
use skills::Skill;

// The objects whose strains are joined.
// Kept as an enum: a closure over places is no plainer, as it would require that the chart holds each place and promise `slider_at` of it.
#[derive(Clone, Copy)]
pub enum Objects {
    All,
    Sliders,
}

// What the strain of a place needs from the place before, and the strain: the start as the chart has it and the decaying strain.
#[derive(Clone, Copy)]
pub struct Place {
    pub start: f64,
    pub current: f64,
    pub strain: f64,
}

// Whether the object at place j is a slider.
fn is_slider(chart: &[u8], lay: Layout, j: usize) -> bool
    requires { Holds chart.now lay × (j < lay.n) }
    ensures { result ≡ slider_at chart.now lay j }
{
    chart_fields::fields_of(chart, lay, j).is_slider()
}

// Whether the object at place j is one of these.
fn keeps(chart: &[u8], lay: Layout, of: Objects, j: usize) -> bool
    requires { Holds chart.now lay × (j < lay.n) }
    ensures { result ≡ keeps_of chart.now lay of j }
{
    match of {
        Objects::All => true,
        Objects::Sliders => is_slider(chart, lay, j),
    }
}

// Before place 1.
fn place_zero(chart: &[u8], lay: Layout) -> Place
    requires { Holds chart.now lay × (0 < lay.n) }
    ensures { result ≡ place_zero chart.now lay }
{
    Place {
        start: skills::raw_start(chart, lay, 0),
        current: 0.0,
        strain: 0.0,
    }
}

// Place j, after the place before.
fn next(
    chart: &[u8],
    lay: Layout,
    clock: f64,
    values: &[f64],
    skill: Skill,
    last: Place,
    j: usize,
) -> Place
    requires { (Readable chart.now lay values.now) × (j < lay.n) }
    ensures { result ≡ place_next chart.now lay clock values.now skill last j }
{
    let start = skills::raw_start(chart, lay, j);
    let delta = (start - last.start) / clock;
    let current = skills::current_strain(values, j, skill, last.current, delta);
    let strain = skills::strain_value_at(values, j, skill, current);
    Place {
        start,
        current,
        strain,
    }
}

// The strain of place 1.
pub fn first_strain(chart: &[u8], lay: Layout, clock: f64, values: &[f64], skill: Skill) -> f64
    requires { (Readable chart.now lay values.now) × (1 < lay.n) }
    ensures { result ≡ strain_of chart.now lay clock values.now skill 1 }
{
    let zero = place_zero(chart, lay);
    let first = next(chart, lay, clock, values, skill, zero, 1);
    first.strain
}

// The strains of a skill at these objects, from place 1 on, joined to `from` one after the other.
pub fn fold<F: Fn(f64, f64) -> f64>(
    chart: &[u8],
    lay: Layout,
    clock: f64,
    values: &[f64],
    skill: Skill,
    of: Objects,
    from: f64,
    join: F,
) -> f64
    requires readable { Readable chart.now lay values.now }
    requires joins { F.IsAlwaysCallable join }
    ensures { FoldsTo (λ to strain r. F.post join to strain r) from (strains_of chart.now lay clock values.now of skill) result }
{
    let mut to = from;
    if lay.n < 2 {
        return to;
    }
    let mut place = place_zero(chart, lay);
    for j in 1..lay.n {
        place = next(chart, lay, clock, values, skill, place, j);
        if keeps(chart, lay, of, j) {
            to = join(to, place.strain);
        }
    }
    to
}
