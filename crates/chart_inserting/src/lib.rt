// Putting an object in and taking one out (document 02, order 1).
#![tactic(auto)]

ghost use Rattle.std.specs.Prelude.{◌≡◌, true, ◌+◌, ◌^◌, ◌<◌, ◌≤◌, length};
ghost use Rattle.chart_fields.specs.Limits.{header_size};
ghost use Rattle.chart_fields.specs.Objects.{Holds};
ghost use Rattle.chart_opening.specs.Header.{layout_of, header_ok};
ghost use Rattle.chart_opening.specs.Conditions.{first_of, if_accepted, Opens};
ghost use Rattle.chart_inserting.specs.Local.{start_with, long_with, falls_without, start_without, long_without, remove_local};
ghost use Rattle.chart_inserting.specs.Insert.{put_word, length_for, recounted, no_room, insert_object, remove_object};
ghost use Rattle.chart_inserting.specs.Insert.{insert_place_conditions, insert_verdict, remove_place_conditions, remove_verdict};
ghost use Rattle.chart_inserting.specs.Accepted.{Inserted, Removed};

use chart_fields::{Fields, Layout};
use chart_opening::Refusal;

// Writes a word, little-endian.
fn put_word(chart: &mut [u8], at: usize, x: usize)
    requires { at + 4 ≤ length chart.old }
    ensures { chart.new ≡ put_word at x chart.old }
{
    chart_replacing::put(chart, at, &x.to_le_bytes()[..4]);
}

// Writes the count, the offsets and the length of a chart with n objects.
#[tactic(auto, unfolding(crate::specs::Insert::recounted))]
fn recount(chart: &mut [u8], lay: Layout, n: usize)
    requires { (header_size ≤ length chart.old) × (length_for lay n < 2 ^ 64) }
    ensures { chart.new ≡ recounted lay n chart.old }
{
    let nested_at = chart_fields::HEADER_SIZE + lay.object_size * n;
    let points_at = nested_at + chart_fields::NESTED_SIZE * lay.nested;
    put_word(chart, 0, n);
    put_word(chart, 16, nested_at);
    put_word(chart, 20, points_at);
    put_word(chart, 24, points_at + chart_fields::POINT_SIZE * lay.points);
}

// ---- Insertion

// Condition 9: the buffer or the counts have no room for one object more.
fn no_room(chart: &[u8], lay: Layout) -> bool
    requires { (lay ≡ layout_of chart.now) × (header_ok chart.now ≡ true) }
    ensures { result ≡ no_room chart.now }
{
    (chart.len() < num_floats::count_at(chart, 24) + lay.object_size)
        | (chart_fields::MOST_OBJECTS <= lay.n)
}

// The start at place j of the chart with an object of these fields at a place.
#[tactic(auto, unfolding(crate::specs::Local::start_with))]
fn start_with(chart: &[u8], lay: Layout, place: usize, f: Fields, j: usize) -> f64
    requires { Holds chart.now lay × (place ≤ lay.n) × (j ≤ lay.n) }
    ensures { result ≡ start_with chart.now lay place f j }
{
    if j == place {
        f.start
    } else {
        let old = if j < place { j } else { j - 1 };
        chart_fields::fields_of(chart, lay, old).start
    }
}

// Condition 6 of that chart.
#[tactic(auto, unfolding(crate::specs::Local::long_with))]
pub fn long_with(chart: &[u8], lay: Layout, clock: f64, place: usize, f: Fields) -> bool
    requires { Holds chart.now lay × (place ≤ lay.n) }
    ensures { result ≡ long_with chart.now lay clock place f }
{
    1 <= lay.n
        && chart_opening::far_apart(
            start_with(chart, lay, place, f, lay.n),
            start_with(chart, lay, place, f, 1),
            clock,
        )
}

// Conditions 8 and 9, then 3 to 6 for the chart as it would become; the chart as it is meets none of 1 to 6.
fn check_insert_at(chart: &[u8], place: usize, object: &[u8]) -> Result<(), Refusal>
    requires { Opens chart.now }
    ensures { result ≡ first_of (insert_place_conditions chart.now place object.now) }
{
    let lay = chart_opening::layout_of(chart);
    if lay.n < place {
        return Err(Refusal::Place);
    }
    if no_room(chart, lay) {
        return Err(Refusal::Room);
    }
    if object.len() != lay.object_size {
        return Err(Refusal::Object(place));
    }
    let settings = chart_opening::settings_at(chart, chart_opening::SETTINGS_START);
    let f = chart_fields::fields_at(object, 0, lay.object_size);
    let long = long_with(chart, lay, settings.clock_rate, place, f);
    chart_replacing::check_object(chart, lay, place, place, f, long)
}

// All conditions of an insertion in their order; entries is the number of entries of the shortest table.
pub fn check_insert(
    chart: &[u8],
    place: usize,
    object: &[u8],
    entries: usize,
) -> Result<(), Refusal>
    ensures { result ≡ insert_verdict chart.now place object.now entries }
{
    chart_opening::check(chart, entries)?;
    let lay = chart_opening::layout_of(chart);
    if entries < lay.n + 1 {
        return Err(Refusal::Table);
    }
    check_insert_at(chart, place, object)
}

// Puts an accepted object in.
pub fn put_in(chart: &mut [u8], place: usize, object: &[u8])
    requires { Inserted chart.old place object.now }
    ensures { chart.new ≡ insert_object place object.now chart.old }
{
    let lay = chart_opening::layout_of(chart);
    let end = num_floats::count_at(chart, 24);
    let size = lay.object_size;
    let at = chart_fields::HEADER_SIZE + size * place;
    num_tables::move_part(chart, at, at + size, end - at);
    chart_replacing::put(chart, at, object);
    recount(chart, lay, lay.n + 1);
}

// Puts an object in at a place, or refuses and leaves the buffer as it was.
pub fn insert(chart: &mut [u8], place: usize, object: &[u8], entries: usize) -> Result<(), Refusal>
    ensures answer { result ≡ insert_verdict chart.old place object.now entries }
    ensures chart { chart.new ≡ if_accepted result (insert_object place object.now chart.old) (λ _. chart.old) }
{
    check_insert(chart, place, object, entries)?;
    put_in(chart, place, object);
    Ok(())
}

// ---- Removal

// Condition 5 of the chart without the object at a place: there the object after it starts before the one before it.
#[tactic(auto, unfolding(crate::specs::Local::falls_without))]
fn falls_without(chart: &[u8], lay: Layout, place: usize) -> bool
    requires { Holds chart.now lay × (place < lay.n) }
    ensures { result ≡ falls_without chart.now lay place }
{
    let next = place + 1;
    next < lay.n
        && chart_replacing::falls_here(chart, lay, place, chart_fields::fields_of(chart, lay, next))
}

// The start at place j of that chart.
#[tactic(auto, unfolding(crate::specs::Local::start_without))]
fn start_without(chart: &[u8], lay: Layout, place: usize, j: usize) -> f64
    requires { Holds chart.now lay × (j + 1 < lay.n) }
    ensures { result ≡ start_without chart.now lay place j }
{
    let old = if j < place { j } else { j + 1 };
    chart_fields::fields_of(chart, lay, old).start
}

// Condition 6 of that chart.
#[tactic(auto, unfolding(crate::specs::Local::long_without))]
pub fn long_without(chart: &[u8], lay: Layout, clock: f64, place: usize) -> bool
    requires { Holds chart.now lay }
    ensures { result ≡ long_without chart.now lay clock place }
{
    3 <= lay.n
        && chart_opening::far_apart(
            start_without(chart, lay, place, lay.n - 2),
            start_without(chart, lay, place, 1),
            clock,
        )
}

// Conditions 3 to 6 of that chart: only what the removal can have changed is tested.
#[tactic(auto, unfolding(crate::specs::Local::remove_local, chart_opening::specs::Conditions::first_of))]
fn check_without(chart: &[u8], lay: Layout, clock: f64, place: usize) -> Result<(), Refusal>
    requires { Holds chart.now lay × (place < lay.n) }
    ensures { result ≡ first_of (remove_local chart.now lay clock place) }
{
    if falls_without(chart, lay, place) {
        return Err(Refusal::Order(place));
    }
    if long_without(chart, lay, clock, place) {
        return Err(Refusal::Length);
    }
    Ok(())
}

// Condition 8, then 3 to 6 for the chart as it would become; the chart as it is meets none of 1 to 6.
fn check_remove_at(chart: &[u8], place: usize) -> Result<(), Refusal>
    requires { Opens chart.now }
    ensures { result ≡ first_of (remove_place_conditions chart.now place) }
{
    let lay = chart_opening::layout_of(chart);
    if lay.n <= place {
        return Err(Refusal::Place);
    }
    let settings = chart_opening::settings_at(chart, chart_opening::SETTINGS_START);
    check_without(chart, lay, settings.clock_rate, place)
}

// All conditions of a removal in their order; entries is the number of entries of the shortest table.
pub fn check_remove(chart: &[u8], place: usize, entries: usize) -> Result<(), Refusal>
    ensures { result ≡ remove_verdict chart.now place entries }
{
    chart_opening::check(chart, entries)?;
    check_remove_at(chart, place)
}

// Takes the object at an accepted place out.
pub fn take_out(chart: &mut [u8], place: usize)
    requires { Removed chart.old place }
    ensures { chart.new ≡ remove_object place chart.old }
{
    let lay = chart_opening::layout_of(chart);
    let end = num_floats::count_at(chart, 24);
    let size = lay.object_size;
    let at = chart_fields::HEADER_SIZE + size * place;
    let next = at + size;
    num_tables::move_part(chart, next, at, end - next);
    recount(chart, lay, lay.n - 1);
}

// Takes the object at a place out, or refuses and leaves the buffer as it was.
pub fn remove(chart: &mut [u8], place: usize, entries: usize) -> Result<(), Refusal>
    ensures answer { result ≡ remove_verdict chart.old place entries }
    ensures chart { chart.new ≡ if_accepted result (remove_object place chart.old) (λ _. chart.old) }
{
    check_remove(chart, place, entries)?;
    take_out(chart, place);
    Ok(())
}
