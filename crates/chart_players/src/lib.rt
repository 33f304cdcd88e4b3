// Two players over one chart (document 02, order 8): the second player's settings come with a call. Where a condition does not depend on the settings, one
// check of the chart's bytes serves both players.
#![tactic(auto)]

ghost use Rattle.std.specs.Prelude.{◌≡◌, length};
ghost use Rattle.chart_opening.specs.Header.{header_ok};
ghost use Rattle.chart_opening.specs.Conditions.{refuse_if, if_accepted, Opens, open_verdict};
ghost use Rattle.chart_opening.specs.declared.Refusal.TheVariants.{Length};
ghost use Rattle.chart_replacing.specs.Replace.{put_object, replace_verdict};
ghost use Rattle.chart_replacing.specs.Accepted.{Taken};
ghost use Rattle.chart_inserting.specs.Insert.{insert_object, insert_verdict, remove_object, remove_verdict};
ghost use Rattle.chart_inserting.specs.Accepted.{Inserted, Removed};
ghost use Rattle.chart_players.specs.Second.{under, second_verdict, both_verdict};
ghost use Rattle.chart_players.specs.Verdicts.{tried};

use chart_opening::Refusal;

// Bytes of a player's settings.
pub const SETTINGS_SIZE: usize = 48;

// Whether the header is right for the second player: condition 1 is that it is not.
pub fn header_ok_as(chart: &[u8], settings: &[u8]) -> bool
    ensures { result ≡ header_ok (under settings.now chart.now) }
{
    chart_opening::frame_ok(chart)
        && (settings.len() != SETTINGS_SIZE
            || chart_opening::flags_ok(num_floats::u32_at(settings, 44)))
}

// Conditions 1 to 7 for the second player; entries is the number of entries of that player's shortest table.
pub fn check_as(chart: &[u8], settings: &[u8], entries: usize) -> Result<(), Refusal>
    ensures { result ≡ second_verdict settings.now chart.now
        (open_verdict (under settings.now chart.now) entries) }
{
    if !header_ok_as(chart, settings) {
        return Err(Refusal::Header);
    }
    if settings.len() != SETTINGS_SIZE {
        return Err(Refusal::Setting);
    }
    chart_opening::check_under(chart, chart_opening::settings_at(settings, 0), entries)
}

// The same for a chart that meets none of 1 to 6 for the first player, with least entries asked of the tables: what lies in the objects is not tried again.
fn check_other(chart: &[u8], settings: &[u8], least: usize, entries: usize) -> Result<(), Refusal>
    requires { Opens chart.now }
    ensures { result ≡ second_verdict settings.now chart.now (tried settings.now chart.now entries least) }
{
    if !header_ok_as(chart, settings) {
        return Err(Refusal::Header);
    }
    if settings.len() != SETTINGS_SIZE {
        return Err(Refusal::Setting);
    }
    let set = chart_opening::settings_at(settings, 0);
    if !chart_opening::settings_ok(set) {
        return Err(Refusal::Setting);
    }
    let lay = chart_opening::layout_of(chart);
    if chart_opening::too_long(chart, lay, set.clock_rate) {
        return Err(Refusal::Length);
    }
    if entries < least {
        return Err(Refusal::Table);
    }
    Ok(())
}

// Condition 6 of the chart as it would become.
fn length_verdict(long: bool) -> Result<(), Refusal>
    ensures { result ≡ refuse_if long Length }
{
    if long {
        return Err(Refusal::Length);
    }
    Ok(())
}

// All conditions of a replacement for the second player, where the first player's is accepted.
fn check_replace_as(
    chart: &[u8],
    settings: &[u8],
    place: usize,
    object: &[u8],
    entries: usize,
) -> Result<(), Refusal>
    requires { Taken chart.now place object.now }
    ensures { result ≡ second_verdict settings.now chart.now
        (replace_verdict (under settings.now chart.now) place object.now entries) }
{
    let lay = chart_opening::layout_of(chart);
    check_other(chart, settings, lay.n, entries)?;
    let set = chart_opening::settings_at(settings, 0);
    let f = chart_fields::fields_at(object, 0, lay.object_size);
    length_verdict(chart_replacing::new_too_long(chart, lay, set.clock_rate, place, f))
}

// The answer of a replacement for both players.
fn check_replace_both(
    chart: &[u8],
    settings: &[u8],
    place: usize,
    object: &[u8],
    entries: usize,
    second_entries: usize,
) -> Result<(), Refusal>
    ensures { result ≡ both_verdict (replace_verdict chart.now place object.now entries)
        (second_verdict settings.now chart.now
        (replace_verdict (under settings.now chart.now) place object.now second_entries)) }
{
    chart_replacing::check_replace(chart, place, object, entries)?;
    check_replace_as(chart, settings, place, object, second_entries)
}

// Replaces the object at a place for both players, or refuses and leaves the chart as it was.
pub fn replace_both(
    chart: &mut [u8],
    settings: &[u8],
    place: usize,
    object: &[u8],
    entries: usize,
    second_entries: usize,
) -> Result<(), Refusal>
    ensures answer { result ≡ both_verdict (replace_verdict chart.old place object.now entries)
        (second_verdict settings.now chart.old
        (replace_verdict (under settings.now chart.old) place object.now second_entries)) }
    ensures chart { chart.new ≡ if_accepted result (put_object place object.now chart.old) (λ _. chart.old) }
{
    check_replace_both(chart, settings, place, object, entries, second_entries)?;
    chart_replacing::put_object(chart, place, object);
    Ok(())
}

// All conditions of an insertion for the second player, where the first player's is accepted.
fn check_insert_as(
    chart: &[u8],
    settings: &[u8],
    place: usize,
    object: &[u8],
    entries: usize,
) -> Result<(), Refusal>
    requires { Inserted chart.now place object.now }
    ensures { result ≡ second_verdict settings.now chart.now
        (insert_verdict (under settings.now chart.now) place object.now entries) }
{
    let lay = chart_opening::layout_of(chart);
    check_other(chart, settings, lay.n + 1, entries)?;
    let set = chart_opening::settings_at(settings, 0);
    let f = chart_fields::fields_at(object, 0, lay.object_size);
    length_verdict(chart_inserting::long_with(chart, lay, set.clock_rate, place, f))
}

// The answer of an insertion for both players.
fn check_insert_both(
    chart: &[u8],
    settings: &[u8],
    place: usize,
    object: &[u8],
    entries: usize,
    second_entries: usize,
) -> Result<(), Refusal>
    ensures { result ≡ both_verdict (insert_verdict chart.now place object.now entries)
        (second_verdict settings.now chart.now
        (insert_verdict (under settings.now chart.now) place object.now second_entries)) }
{
    chart_inserting::check_insert(chart, place, object, entries)?;
    check_insert_as(chart, settings, place, object, second_entries)
}

// Puts an object in at a place for both players, or refuses and leaves the buffer as it was.
pub fn insert_both(
    chart: &mut [u8],
    settings: &[u8],
    place: usize,
    object: &[u8],
    entries: usize,
    second_entries: usize,
) -> Result<(), Refusal>
    ensures answer { result ≡ both_verdict (insert_verdict chart.old place object.now entries)
        (second_verdict settings.now chart.old
        (insert_verdict (under settings.now chart.old) place object.now second_entries)) }
    ensures chart { chart.new ≡ if_accepted result (insert_object place object.now chart.old) (λ _. chart.old) }
{
    check_insert_both(chart, settings, place, object, entries, second_entries)?;
    chart_inserting::put_in(chart, place, object);
    Ok(())
}

// All conditions of a removal for the second player, where the first player's is accepted.
fn check_remove_as(
    chart: &[u8],
    settings: &[u8],
    place: usize,
    entries: usize,
) -> Result<(), Refusal>
    requires { Removed chart.now place }
    ensures { result ≡ second_verdict settings.now chart.now
        (remove_verdict (under settings.now chart.now) place entries) }
{
    let lay = chart_opening::layout_of(chart);
    check_other(chart, settings, lay.n, entries)?;
    let set = chart_opening::settings_at(settings, 0);
    length_verdict(chart_inserting::long_without(chart, lay, set.clock_rate, place))
}

// The answer of a removal for both players.
fn check_remove_both(
    chart: &[u8],
    settings: &[u8],
    place: usize,
    entries: usize,
    second_entries: usize,
) -> Result<(), Refusal>
    ensures { result ≡ both_verdict (remove_verdict chart.now place entries)
        (second_verdict settings.now chart.now
        (remove_verdict (under settings.now chart.now) place second_entries)) }
{
    chart_inserting::check_remove(chart, place, entries)?;
    check_remove_as(chart, settings, place, second_entries)
}

// Takes the object at a place out for both players, or refuses and leaves the buffer as it was.
pub fn remove_both(
    chart: &mut [u8],
    settings: &[u8],
    place: usize,
    entries: usize,
    second_entries: usize,
) -> Result<(), Refusal>
    ensures answer { result ≡ both_verdict (remove_verdict chart.old place entries)
        (second_verdict settings.now chart.old
        (remove_verdict (under settings.now chart.old) place second_entries)) }
    ensures chart { chart.new ≡ if_accepted result (remove_object place chart.old) (λ _. chart.old) }
{
    check_remove_both(chart, settings, place, entries, second_entries)?;
    chart_inserting::take_out(chart, place);
    Ok(())
}
