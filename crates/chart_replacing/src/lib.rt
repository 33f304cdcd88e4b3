// Replacing an object of a chart (document 01, "What each call answers").
#![tactic(auto)]

ghost use Rattle.std.specs.Prelude.{◌≡◌, ◌+◌, ◌<◌, ◌≤◌, length};
ghost use Rattle.num_tables.specs.Parts as parts;
ghost use Rattle.chart_fields.specs.Objects.{Holds};
ghost use Rattle.chart_opening.specs.Conditions.{first_of, if_accepted, Opens};
ghost use Rattle.chart_replacing.specs.Local.{falls_here, falls_next, object_conditions, new_start, new_too_long, new_conditions};
ghost use Rattle.chart_replacing.specs.Replace.{put_object, place_conditions, replace_verdict};
ghost use Rattle.chart_replacing.specs.Accepted.{Taken};

use chart_fields::{Fields, Layout};
use chart_opening::Refusal;

// Copies s to d, from at on. By a loop, since `copy_from_slice` makes the library need `memmove`, by what may not change.
pub fn put(d: &mut [u8], at: usize, s: &[u8])
    requires { at + length s.now ≤ length d.old }
    ensures { d.new ≡ parts.put at s.now d.old }
{
    for k in 0..s.len() {
        d[at + k] = s[k];
    }
}

// Condition 5 at the new object's place: it starts before its predecessor.
#[tactic(auto, unfolding(crate::specs::Local::falls_here))]
pub fn falls_here(chart: &[u8], lay: Layout, place: usize, f: Fields) -> bool
    requires { Holds chart.now lay × (place ≤ lay.n) }
    ensures { result ≡ falls_here chart.now lay place f }
{
    0 < place && f.start < chart_fields::fields_of(chart, lay, place - 1).start
}

// Condition 5 at the place after: the object that then stands there, at place next until now, starts before the new one.
#[tactic(auto, unfolding(crate::specs::Local::falls_next))]
fn falls_next(chart: &[u8], lay: Layout, next: usize, f: Fields) -> bool
    requires { Holds chart.now lay }
    ensures { result ≡ falls_next chart.now lay next f }
{
    next < lay.n && chart_fields::fields_of(chart, lay, next).start < f.start
}

// Conditions 3 to 6 for the chart with an object of these fields at a place and the old one of place next behind it: only what that object can have
// changed is tested. The answer of 6 is given.
#[tactic(auto, unfolding(crate::specs::Local::object_conditions, chart_opening::specs::Conditions::first_of))]
pub fn check_object(
    chart: &[u8],
    lay: Layout,
    place: usize,
    next: usize,
    f: Fields,
    long: bool,
) -> Result<(), Refusal>
    requires { Holds chart.now lay × (place ≤ lay.n) }
    ensures { result ≡ first_of (object_conditions chart.now lay place next f long) }
{
    if !chart_fields::fields_ok(f) {
        return Err(Refusal::Object(place));
    }
    if chart_entries::wrong_entries(chart, lay, f) {
        return Err(Refusal::Entries(place));
    }
    if falls_here(chart, lay, place, f) {
        return Err(Refusal::Order(place));
    }
    if falls_next(chart, lay, next, f) {
        return Err(Refusal::Order(place + 1));
    }
    if long {
        return Err(Refusal::Length);
    }
    Ok(())
}

// The start at place j of the new chart.
#[tactic(auto, unfolding(crate::specs::Local::new_start))]
fn new_start(chart: &[u8], lay: Layout, place: usize, f: Fields, j: usize) -> f64
    requires { Holds chart.now lay × (j < lay.n) }
    ensures { result ≡ new_start chart.now lay place f j }
{
    if j == place {
        f.start
    } else {
        chart_fields::fields_of(chart, lay, j).start
    }
}

// Condition 6 of the new chart.
#[tactic(auto, unfolding(crate::specs::Local::new_too_long))]
pub fn new_too_long(chart: &[u8], lay: Layout, clock: f64, place: usize, f: Fields) -> bool
    requires { Holds chart.now lay }
    ensures { result ≡ new_too_long chart.now lay clock place f }
{
    2 <= lay.n
        && chart_opening::far_apart(
            new_start(chart, lay, place, f, lay.n - 1),
            new_start(chart, lay, place, f, 1),
            clock,
        )
}

// Conditions 3 to 6 for the chart with an object of these fields at a place.
fn check_new(chart: &[u8], lay: Layout, clock: f64, place: usize, f: Fields) -> Result<(), Refusal>
    requires { Holds chart.now lay × (place < lay.n) }
    ensures { result ≡ first_of (new_conditions chart.now lay clock place f) }
{
    let long = new_too_long(chart, lay, clock, place, f);
    check_object(chart, lay, place, place + 1, f, long)
}

// Condition 8, then 3 to 6 for the chart as it would become; the chart as it is meets none of 1 to 6.
#[tactic(auto, unfolding(crate::specs::Replace::place_conditions, chart_opening::specs::Conditions::first_of))]
fn check_at(chart: &[u8], place: usize, object: &[u8]) -> Result<(), Refusal>
    requires { Opens chart.now }
    ensures { result ≡ first_of (place_conditions chart.now place object.now) }
{
    let lay = chart_opening::layout_of(chart);
    if lay.n <= place {
        return Err(Refusal::Place);
    }
    if object.len() != lay.object_size {
        return Err(Refusal::Object(place));
    }
    let settings = chart_opening::settings_at(chart, chart_opening::SETTINGS_START);
    let f = chart_fields::fields_at(object, 0, lay.object_size);
    check_new(chart, lay, settings.clock_rate, place, f)
}

// All conditions of replacing in their order; entries is the number of entries of the shortest table.
pub fn check_replace(
    chart: &[u8],
    place: usize,
    object: &[u8],
    entries: usize,
) -> Result<(), Refusal>
    ensures { result ≡ replace_verdict chart.now place object.now entries }
{
    chart_opening::check(chart, entries)?;
    check_at(chart, place, object)
}

// Writes an accepted object to its place.
pub fn put_object(chart: &mut [u8], place: usize, object: &[u8])
    requires { Taken chart.old place object.now }
    ensures { chart.new ≡ put_object place object.now chart.old }
{
    let lay = chart_opening::layout_of(chart);
    put(
        chart,
        chart_fields::HEADER_SIZE + lay.object_size * place,
        object,
    );
}

// Replaces the object at a place, or refuses and leaves the chart as it was.
pub fn replace(chart: &mut [u8], place: usize, object: &[u8], entries: usize) -> Result<(), Refusal>
    ensures answer { result ≡ replace_verdict chart.old place object.now entries }
    ensures chart { chart.new ≡ if_accepted result (put_object place object.now chart.old) (λ _. chart.old) }
{
    check_replace(chart, place, object, entries)?;
    put_object(chart, place, object);
    Ok(())
}
