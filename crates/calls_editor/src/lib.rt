// The station's edits of a chart and its tables: open, replace, insert, remove. Nothing is assumed of the caller: each call answers
// the first condition of its list that is met and changes nothing, or is carried out. A player's settings are the header's, or for
// the second player 48 bytes that come with the call (open_as); an edit whose name ends in both brings the tables of both players up
// to date.
#![tactic(auto)]

ghost use Rattle.std.specs.Prelude.{◌≡◌, ◌+◌, ◌-◌, ◌*◌, ◌<◌, ◌≤◌, min, max, length};
ghost use Rattle.chart_opening.specs.Header.{layout_of};
ghost use Rattle.calls.specs.Tables.{record_width, value_width};
ghost use Rattle.calls.specs.Conditions as ops;
ghost use Rattle.num_tables.specs.Parts.{rows_up, rows_down};
ghost use Rattle.calls.specs.Calls.{state, outcome_with, open_answer, open_leaves, outcome, open_records, open_values, edit_records, edit_values};
ghost use Rattle.calls.specs.Calls.{replaced_records, replaced_values, inserted_records, inserted_values, removed_records, removed_values, first_moved};
ghost use Rattle.calls_players.specs.Second.{open_answer_as, open_leaves_as};
ghost use Rattle.calls_players.specs.Both.{pair, both_answer, both_leaves};
ghost use Rattle.calls_editor.specs.Answers.{Fits, replace_answer, insert_answer, remove_answer};

use chart_opening::{Refusal, Settings};

// Fills entries 1 to N - 1 of an accepted chart's tables, under a player's settings.
pub fn fill_tables(chart: &[u8], set: Settings, records: &mut [f64], values: &mut [f64])
    requires { Fits chart.now (length records.old) (length values.old) }
    ensures records { records.new ≡ open_records set chart.now records.old }
    ensures values { values.new ≡ open_values set chart.now records.new values.old }
{
    let lay = chart_opening::layout_of(chart);
    osu_records::fill(chart, lay, set, records);
    eval_values::fill_values(values, records, chart, lay, set, 1, lay.n);
}

// Checks a chart under the second player's settings and fills that player's tables.
pub fn open_as(
    chart: &[u8],
    settings: &[u8],
    records: &mut [f64],
    values: &mut [f64],
) -> Result<(), Refusal>
    ensures answer { result
        ≡ open_answer_as settings.now (state chart.now records.old values.old) }
    ensures leaves { state chart.now records.new values.new
        ≡ open_leaves_as settings.now (state chart.now records.old values.old) }
{
    chart_players::check_as(
        chart,
        settings,
        calls::entries_in(records.len(), values.len()),
    )?;
    fill_tables(
        chart,
        chart_opening::settings_at(settings, 0),
        records,
        values,
    );
    Ok(())
}

// Checks a chart and fills its tables.
pub fn open(chart: &[u8], records: &mut [f64], values: &mut [f64]) -> Result<(), Refusal>
    ensures answer { result ≡ open_answer (state chart.now records.old values.old) }
    ensures leaves { state chart.now records.new values.new
        ≡ open_leaves (state chart.now records.old values.old) }
{
    open_as(chart, calls::own_settings(chart)?, records, values)
}

// Makes anew what an edit at a place can have changed, under a player's settings: the records from that place to before records_end
// from the chart, and the values from the place before it to before values_end from the records.
fn bring_up_to_date(
    chart: &[u8],
    set: Settings,
    place: usize,
    records_end: usize,
    values_end: usize,
    records: &mut [f64],
    values: &mut [f64],
)
    requires { Fits chart.now (length records.old) (length values.old) }
    ensures records { records.new ≡ edit_records set chart.now place records_end records.old }
    ensures values { values.new ≡ edit_values set chart.now place values_end records.new values.old }
{
    let lay = chart_opening::layout_of(chart);
    let n = lay.n;
    osu_records::fill_range(chart, lay, set, place.max(1), records_end.min(n), records);
    let from = place.saturating_sub(1).max(1);
    eval_values::fill_values(values, records, chart, lay, set, from, values_end.min(n));
}

// Makes anew what another object at a place can have changed, once the chart has it.
fn replace_rows(chart: &[u8], set: Settings, place: usize, records: &mut [f64], values: &mut [f64])
    requires { Fits chart.now (length records.old) (length values.old) × (place < (layout_of chart.now).n) }
    ensures records { records.new ≡ edit_records set chart.now place (replaced_records place) records.old }
    ensures values { values.new
        ≡ edit_values set chart.now place (replaced_values place) records.new values.old }
{
    bring_up_to_date(chart, set, place, place + 3, place + 34, records, values);
}

// Puts an object at a place of the chart and brings both tables up to date.
pub fn replace(
    chart: &mut [u8],
    place: usize,
    object: &[u8],
    records: &mut [f64],
    values: &mut [f64],
) -> Result<(), Refusal>
    ensures { outcome_with (replace_answer result) chart.new records.new values.new
        ≡ outcome (ops.replace place object.now) (state chart.old records.old values.old) }
{
    chart_replacing::replace(
        chart,
        place,
        object,
        calls::entries_in(records.len(), values.len()),
    )?;
    let set = chart_opening::settings_at(chart, calls::SETTINGS_AT);
    replace_rows(chart, set, place, records, values);
    Ok(())
}

// Moves rows from to before to of a table one place up, with their objects.
fn rows_up(table: &mut [f64], width: usize, from: usize, to: usize)
    requires { width * (to + 1) ≤ length table.old }
    ensures { table.new ≡ rows_up width from to table.old }
{
    if from < to {
        num_tables::move_part(table, width * from, width * (from + 1), width * (to - from));
    }
}

// Moves the rows behind from to before to of a table one place down.
fn rows_down(table: &mut [f64], width: usize, from: usize, to: usize)
    requires { (from ≤ to) × (width * to ≤ length table.old) }
    ensures { table.new ≡ rows_down width from to table.old }
{
    if 1 < to - from {
        let next = from + 1;
        num_tables::move_part(table, width * next, width * from, width * (to - next));
    }
}

// Moves the rows of later objects up and makes anew what an object put in at a place can have changed, once the chart has it.
fn insert_rows(chart: &[u8], set: Settings, place: usize, records: &mut [f64], values: &mut [f64])
    requires { Fits chart.now (length records.old) (length values.old) × (place < (layout_of chart.now).n) }
    ensures records { records.new ≡ edit_records set chart.now place (inserted_records place)
        (rows_up record_width (first_moved place) ((layout_of chart.now).n - 1) records.old) }
    ensures values { values.new ≡ edit_values set chart.now place (inserted_values place)
        records.new (rows_up value_width (first_moved place) ((layout_of chart.now).n - 1) values.old) }
{
    let n = chart_opening::layout_of(chart).n;
    let from = place.max(1);
    rows_up(records, calls::RECORD_WIDTH, from, n - 1);
    rows_up(values, calls::VALUE_WIDTH, from, n - 1);
    let end = (place + 3).max(4);
    bring_up_to_date(chart, set, place, end, place + 34, records, values);
}

// Puts an object in before a place of the chart: objects, nested entries and points move up in the buffer, and rows with their objects.
pub fn insert(
    chart: &mut [u8],
    place: usize,
    object: &[u8],
    records: &mut [f64],
    values: &mut [f64],
) -> Result<(), Refusal>
    ensures { outcome_with (insert_answer result) chart.new records.new values.new
        ≡ outcome (ops.insert place object.now) (state chart.old records.old values.old) }
{
    chart_inserting::insert(
        chart,
        place,
        object,
        calls::entries_in(records.len(), values.len()),
    )?;
    let set = chart_opening::settings_at(chart, calls::SETTINGS_AT);
    insert_rows(chart, set, place, records, values);
    Ok(())
}

// Moves the rows of later objects down and makes anew what an object taken out at a place can have changed, once the chart is without it.
fn remove_rows(chart: &[u8], set: Settings, place: usize, records: &mut [f64], values: &mut [f64])
    requires { Fits chart.now (length records.old) (length values.old) × (place ≤ (layout_of chart.now).n)
        × (record_width * ((layout_of chart.now).n + 1) ≤ length records.old) × (value_width * ((layout_of chart.now).n + 1) ≤ length values.old) }
    ensures records { records.new ≡ edit_records set chart.now place (removed_records place)
        (rows_down record_width (first_moved place) ((layout_of chart.now).n + 1) records.old) }
    ensures values { values.new ≡ edit_values set chart.now place (removed_values place)
        records.new (rows_down value_width (first_moved place) ((layout_of chart.now).n + 1) values.old) }
{
    let n = chart_opening::layout_of(chart).n;
    let from = place.max(1);
    rows_down(records, calls::RECORD_WIDTH, from, n + 1);
    rows_down(values, calls::VALUE_WIDTH, from, n + 1);
    let end = (place + 2).max(3);
    bring_up_to_date(chart, set, place, end, place + 33, records, values);
}

// Takes the object at a place out: what lies behind it moves down, and rows with their objects.
pub fn remove(
    chart: &mut [u8],
    place: usize,
    records: &mut [f64],
    values: &mut [f64],
) -> Result<(), Refusal>
    ensures { outcome_with (remove_answer result) chart.new records.new values.new
        ≡ outcome (ops.remove place) (state chart.old records.old values.old) }
{
    chart_inserting::remove(chart, place, calls::entries_in(records.len(), values.len()))?;
    let set = chart_opening::settings_at(chart, calls::SETTINGS_AT);
    remove_rows(chart, set, place, records, values);
    Ok(())
}

// Puts an object at a place of the chart and brings the tables up to date for both players, the second with these settings.
pub fn replace_both(
    chart: &mut [u8],
    settings: &[u8],
    place: usize,
    object: &[u8],
    records: &mut [f64],
    values: &mut [f64],
    second_records: &mut [f64],
    second_values: &mut [f64],
) -> Result<(), Refusal>
    ensures answer { result ≡ both_answer settings.now (ops.replace place object.now)
        (pair chart.old records.old values.old second_records.old second_values.old) }
    ensures leaves { pair chart.new records.new values.new second_records.new second_values.new
        ≡ both_leaves settings.now (ops.replace place object.now)
        (pair chart.old records.old values.old second_records.old second_values.old) }
{
    chart_players::replace_both(
        chart,
        settings,
        place,
        object,
        calls::entries_in(records.len(), values.len()),
        calls::entries_in(second_records.len(), second_values.len()),
    )?;
    let set = chart_opening::settings_at(chart, calls::SETTINGS_AT);
    replace_rows(chart, set, place, records, values);
    let second = chart_opening::settings_at(settings, 0);
    replace_rows(chart, second, place, second_records, second_values);
    Ok(())
}

// Puts an object in before a place of the chart and brings the tables up to date for both players, the second with these settings.
pub fn insert_both(
    chart: &mut [u8],
    settings: &[u8],
    place: usize,
    object: &[u8],
    records: &mut [f64],
    values: &mut [f64],
    second_records: &mut [f64],
    second_values: &mut [f64],
) -> Result<(), Refusal>
    ensures answer { result ≡ both_answer settings.now (ops.insert place object.now)
        (pair chart.old records.old values.old second_records.old second_values.old) }
    ensures leaves { pair chart.new records.new values.new second_records.new second_values.new
        ≡ both_leaves settings.now (ops.insert place object.now)
        (pair chart.old records.old values.old second_records.old second_values.old) }
{
    chart_players::insert_both(
        chart,
        settings,
        place,
        object,
        calls::entries_in(records.len(), values.len()),
        calls::entries_in(second_records.len(), second_values.len()),
    )?;
    let set = chart_opening::settings_at(chart, calls::SETTINGS_AT);
    insert_rows(chart, set, place, records, values);
    let second = chart_opening::settings_at(settings, 0);
    insert_rows(chart, second, place, second_records, second_values);
    Ok(())
}

// Takes the object at a place out and brings the tables up to date for both players, the second with these settings.
pub fn remove_both(
    chart: &mut [u8],
    settings: &[u8],
    place: usize,
    records: &mut [f64],
    values: &mut [f64],
    second_records: &mut [f64],
    second_values: &mut [f64],
) -> Result<(), Refusal>
    ensures answer { result ≡ both_answer settings.now (ops.remove place)
        (pair chart.old records.old values.old second_records.old second_values.old) }
    ensures leaves { pair chart.new records.new values.new second_records.new second_values.new
        ≡ both_leaves settings.now (ops.remove place)
        (pair chart.old records.old values.old second_records.old second_values.old) }
{
    chart_players::remove_both(
        chart,
        settings,
        place,
        calls::entries_in(records.len(), values.len()),
        calls::entries_in(second_records.len(), second_values.len()),
    )?;
    let set = chart_opening::settings_at(chart, calls::SETTINGS_AT);
    remove_rows(chart, set, place, records, values);
    let second = chart_opening::settings_at(settings, 0);
    remove_rows(chart, second, place, second_records, second_values);
    Ok(())
}
