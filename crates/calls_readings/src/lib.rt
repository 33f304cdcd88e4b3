// The station's readings of a place: its record, its values, and what is worked out from the records there. Nothing is assumed of
// the caller: each reading answers the first of conditions 1, 7 and 8 that is met, and writes nothing. A reading whose name ends in
// as is the second player's, with that player's settings, of which another length is 2 right after 1; the first player's settings
// are the header's.
#![tactic(auto)]

ghost use Rattle.std.specs.Prelude.{◌≡◌, [], ◌/◌, ◌≤◌, ◌<◌, length};
ghost use Rattle.chart_fields.specs.Limits.{most_objects};
ghost use Rattle.chart_opening.specs.Header.{settings_of};
ghost use Rattle.chart_opening.specs.Conditions.{first_of};
ghost use Rattle.chart_players.specs.Second.{under, second_verdict};
ghost use Rattle.calls.specs.Tables.{record_width};
ghost use Rattle.calls.specs.Afresh as details;
ghost use Rattle.calls.specs.Afresh.{detail_from};
ghost use Rattle.calls.specs.Conditions as ops;
ghost use Rattle.calls.specs.Conditions.{row_conditions, read_verdict};
ghost use Rattle.calls.specs.Calls.{state, outcome_with, outcome};
ghost use Rattle.calls_players.specs.Second.{outcome_as};
ghost use Rattle.calls_readings.specs.Answers.{InTable, record_answer, values_answer, aim_finding, aim_answer, rhythm_finding, rhythm_answer};

use chart_opening::{Refusal, Settings};
use eval_aim::AimParts;
use eval_rhythm::Counted;
use eval_values::Values;
use osu_difficulty_object::OsuDifficultyObject;

// Aim's value at a place and what it is made of, and both without sliders.
#[derive(Clone, Copy)]
pub struct AimDetail {
    pub value: f64,
    pub parts: AimParts,
    pub value_no_sliders: f64,
    pub parts_no_sliders: AimParts,
}

// Conditions 7 and 8 of a reading, for a chart of n objects and a table of as many numbers, so many an entry.
fn check_place(n: usize, numbers: usize, width: usize, place: usize) -> Result<(), Refusal>
    requires { (n ≤ most_objects) × (0 < width) × (width ≤ record_width) }
    ensures { result ≡ first_of (row_conditions n (numbers / width) place) }
{
    if numbers < width * n {
        return Err(Refusal::Table);
    }
    if !((0 < place) & (place < n)) {
        return Err(Refusal::Place);
    }
    Ok(())
}

// Conditions 1, 7 and 8 of a reading. The first player's readings test the header themselves, and do not go by way of the second
// player's, for their speed (DECISIONS 93): so each reading has one caller, into which it is copied.
fn check_reading(chart: &[u8], numbers: usize, width: usize, place: usize) -> Result<(), Refusal>
    requires { (0 < width) × (width ≤ record_width) }
    ensures { result ≡ read_verdict chart.now (numbers / width) place }
{
    if !chart_opening::header_ok(chart) {
        return Err(Refusal::Header);
    }
    check_place(chart_opening::layout_of(chart).n, numbers, width, place)
}

// The same for the second player, with 2 right after 1 for settings of another length.
fn check_reading_as(
    chart: &[u8],
    settings: &[u8],
    numbers: usize,
    width: usize,
    place: usize,
) -> Result<(), Refusal>
    requires { (0 < width) × (width ≤ record_width) }
    ensures { result ≡ second_verdict settings.now chart.now
        (read_verdict (under settings.now chart.now) (numbers / width) place) }
{
    if !chart_players::header_ok_as(chart, settings) {
        return Err(Refusal::Header);
    }
    if settings.len() != chart_players::SETTINGS_SIZE {
        return Err(Refusal::Setting);
    }
    check_place(chart_opening::layout_of(chart).n, numbers, width, place)
}

// The record of a place, as the table has it.
pub fn read_record(
    chart: &[u8],
    records: &[f64],
    place: usize,
) -> Result<OsuDifficultyObject, Refusal>
    ensures { outcome_with (record_answer result) chart.now records.now []
        ≡ outcome (ops.read_record place) (state chart.now records.now []) }
{
    check_reading(chart, records.len(), calls::RECORD_WIDTH, place)?;
    Ok(osu_records::record_at(records, place))
}

// The record of a place, as the table has it, for the second player.
pub fn read_record_as(
    chart: &[u8],
    settings: &[u8],
    records: &[f64],
    place: usize,
) -> Result<OsuDifficultyObject, Refusal>
    ensures { outcome_with (record_answer result) chart.now records.now []
        ≡ outcome_as settings.now (ops.read_record place) (state chart.now records.now []) }
{
    check_reading_as(chart, settings, records.len(), calls::RECORD_WIDTH, place)?;
    Ok(osu_records::record_at(records, place))
}

// The values of a place, as the table has them.
pub fn read_values(chart: &[u8], values: &[f64], place: usize) -> Result<Values, Refusal>
    ensures { outcome_with (values_answer result) chart.now [] values.now
        ≡ outcome (ops.read_values place) (state chart.now [] values.now) }
{
    check_reading(chart, values.len(), calls::VALUE_WIDTH, place)?;
    Ok(eval_values::row_at(values, place))
}

// The values of a place, as the table has them, for the second player.
pub fn read_values_as(
    chart: &[u8],
    settings: &[u8],
    values: &[f64],
    place: usize,
) -> Result<Values, Refusal>
    ensures { outcome_with (values_answer result) chart.now [] values.now
        ≡ outcome_as settings.now (ops.read_values place) (state chart.now [] values.now) }
{
    check_reading_as(chart, settings, values.len(), calls::VALUE_WIDTH, place)?;
    Ok(eval_values::row_at(values, place))
}

// Aim at a place from 1 to n - 1, from the records of the table; no setting plays a part.
fn aim_at(chart: &[u8], records: &[f64], place: usize) -> AimDetail
    requires { InTable chart.now (length records.now) place }
    ensures { aim_finding result ≡ detail_from details.aim_parts (settings_of chart.now) chart.now records.now place }
{
    let lay = chart_opening::layout_of(chart);
    let parts = eval_aim::parts_place(records, chart, lay, place, true);
    let parts_no_sliders = eval_aim::parts_place(records, chart, lay, place, false);
    AimDetail {
        value: parts.combine(true),
        parts: parts,
        value_no_sliders: parts_no_sliders.combine(false),
        parts_no_sliders: parts_no_sliders,
    }
}

// Aim's value at a place with its parts, from the records of the table.
pub fn read_aim_parts(chart: &[u8], records: &[f64], place: usize) -> Result<AimDetail, Refusal>
    ensures { outcome_with (aim_answer result) chart.now records.now []
        ≡ outcome (ops.read_detail details.aim_parts place) (state chart.now records.now []) }
{
    check_reading(chart, records.len(), calls::RECORD_WIDTH, place)?;
    Ok(aim_at(chart, records, place))
}

// Aim's value at a place with its parts, from the records of the table, for the second player.
pub fn read_aim_parts_as(
    chart: &[u8],
    settings: &[u8],
    records: &[f64],
    place: usize,
) -> Result<AimDetail, Refusal>
    ensures { outcome_with (aim_answer result) chart.now records.now []
        ≡ outcome_as settings.now (ops.read_detail details.aim_parts place) (state chart.now records.now []) }
{
    check_reading_as(chart, settings, records.len(), calls::RECORD_WIDTH, place)?;
    Ok(aim_at(chart, records, place))
}

// The rhythm value at a place from 1 to n - 1 and its comparisons, from the records of the table.
fn rhythm_at(chart: &[u8], set: Settings, records: &[f64], place: usize) -> Counted
    requires { InTable chart.now (length records.now) place }
    ensures { rhythm_finding result ≡ detail_from details.rhythm set chart.now records.now place }
{
    let lay = chart_opening::layout_of(chart);
    eval_rhythm::evaluate_counted(records, chart, lay, place, set.hit_window)
}

// The rhythm value of a place, and how often an island was compared with a kept one for it, from the records of the table.
pub fn read_rhythm(chart: &[u8], records: &[f64], place: usize) -> Result<Counted, Refusal>
    ensures { outcome_with (rhythm_answer result) chart.now records.now []
        ≡ outcome (ops.read_detail details.rhythm place) (state chart.now records.now []) }
{
    check_reading(chart, records.len(), calls::RECORD_WIDTH, place)?;
    let set = chart_opening::settings_at(chart, calls::SETTINGS_AT);
    Ok(rhythm_at(chart, set, records, place))
}

// The rhythm value of a place, and how often an island was compared with a kept one for it, from the records of the table, for the
// second player.
pub fn read_rhythm_as(
    chart: &[u8],
    settings: &[u8],
    records: &[f64],
    place: usize,
) -> Result<Counted, Refusal>
    ensures { outcome_with (rhythm_answer result) chart.now records.now []
        ≡ outcome_as settings.now (ops.read_detail details.rhythm place) (state chart.now records.now []) }
{
    check_reading_as(chart, settings, records.len(), calls::RECORD_WIDTH, place)?;
    let set = chart_opening::settings_at(settings, 0);
    Ok(rhythm_at(chart, set, records, place))
}
