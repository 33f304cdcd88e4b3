// The station's calls under C names, over slices: a slice passes as a pointer and a length. Nothing is assumed of the lengths or of the
// contents. Each call answers 0 where it is carried out, else the refusal's number times 2^32 plus its place. A call whose name ends in as is the second
// player's, with 48 bytes of settings; the first player's settings are the header's. An edit whose name ends in both is for both players.
#![tactic(auto)]

ghost use Rattle.std.specs.Prelude.{◌≡◌, true, [], ◌/◌, ◌≤◌, ltb, length, get_or, Err};
ghost use Rattle.std.specs.Float.{nan};
ghost use Rattle.num_tables.specs.Parts.{put};
ghost use Rattle.chart_opening.specs.declared.Refusal.TheVariants.{Table};
ghost use Rattle.chart_players.specs.Second.{under, second_verdict};
ghost use Rattle.calls.specs.Conditions as ops;
ghost use Rattle.calls.specs.Afresh as kinds;
ghost use Rattle.calls.specs.Conditions.{lengths, sum_verdict};
ghost use Rattle.calls.specs.Tables.{totals_width};
ghost use Rattle.calls.specs.Calls.{state, outcome_with, open_answer, open_leaves, verdict_in, outcome, list_after, scratch_after};
ghost use Rattle.calls_players.specs.Second.{open_answer_as, open_leaves_as, verdict_as, outcome_as, scratch_after_as};
ghost use Rattle.calls_players.specs.Both.{pair, both_answer, both_leaves};
ghost use Rattle.calls_readings.specs.Answers.{record_answer, values_answer, aim_finding, aim_answer, rhythm_answer};
ghost use Rattle.calls_figures.specs.Answers.{totals_answer, counts_answer, ratings_answer, scratch_of};
ghost use Rattle.station.specs.Codes.{code_of, verdict_code, answer_code, rule_number, finding_row, numbers_of, totals_row, counts_row, ratings_row};
ghost use Rattle.station.specs.Codes.{aim_width, rhythm_width, counts_width, ratings_width, asked_of, ratings_cramped};
ghost use Rattle.station.specs.Codes.{no_room, read_into, figure_into, scratch_into, read_into_as, figure_into_as, scratch_into_as};
ghost use Rattle.station.specs.Codes.{numbers_width, rank_verdict_into, rank_into};
ghost use Rattle.pack.specs.Pack.{buffers, tables};

use calls_readings::AimDetail;
use chart_opening::Refusal;
use eval_aim::AimRule;
use eval_rhythm::Counted;
use eval_values::Values;
use osu_difficulty_object::OsuDifficultyObject;
use skills::Skills;
use skills_counts::ObjectCounts;
use skills_rating::Mods;
use skills_stars::{Asked, Ratings};

// How many places a code tells apart, and how many totals, counts and ratings there are.
const PLACE_SPAN: usize = 0x1_0000_0000;

const TOTALS_WIDTH: usize = 4;

const COUNTS_WIDTH: usize = 7;

const RATINGS_WIDTH: usize = 4;

// Numbers that come with ratings.
const NUMBERS_WIDTH: usize = 5;

// Numbers of aim in its parts, and of the rhythm value with its comparisons.
const AIM_WIDTH: usize = 18;

const RHYTHM_WIDTH: usize = 2;

// A refusal as one number.
fn code(r: Refusal) -> u64
    ensures { result ≡ code_of r }
{
    r.number() as u64 * PLACE_SPAN as u64 + (r.place() % PLACE_SPAN) as u64
}

// What a call answers that writes no numbers: 0 where it is carried out.
fn verdict_code(verdict: Result<(), Refusal>) -> u64
    ensures { result ≡ verdict_code verdict }
{
    match verdict {
        Ok(()) => 0,
        Err(r) => code(r),
    }
}

// Writes numbers at the start of a lent slice.
fn put_row(out: &mut [f64], row: &[f64])
    requires { length row.now ≤ length out.old }
    ensures { out.new ≡ put 0 row.now out.old }
{
    out[..row.len()].copy_from_slice(row);
}

// Checks a chart and fills its tables, for the second player with these settings.
#[unsafe(no_mangle)]
pub extern "C" fn difficulty_open_as(
    chart: &[u8],
    settings: &[u8],
    records: &mut [f64],
    values: &mut [f64],
) -> u64
    ensures answer { result ≡ verdict_code (open_answer_as settings.now (state chart.now records.old values.old)) }
    ensures leaves { state chart.now records.new values.new
        ≡ open_leaves_as settings.now (state chart.now records.old values.old) }
{
    verdict_code(calls_editor::open_as(chart, settings, records, values))
}

// Checks a chart and fills its tables.
#[unsafe(no_mangle)]
pub extern "C" fn difficulty_open(chart: &[u8], records: &mut [f64], values: &mut [f64]) -> u64
    ensures answer { result ≡ verdict_code (open_answer (state chart.now records.old values.old)) }
    ensures leaves { state chart.now records.new values.new
        ≡ open_leaves (state chart.now records.old values.old) }
{
    if chart.len() < chart_fields::HEADER_SIZE {
        return code(Refusal::Header);
    }
    difficulty_open_as(chart, &chart[32..80], records, values)
}

// Puts an object at a place of the chart and brings both tables up to date.
#[unsafe(no_mangle)]
pub extern "C" fn difficulty_replace(
    chart: &mut [u8],
    place: usize,
    object: &[u8],
    records: &mut [f64],
    values: &mut [f64],
) -> u64
    ensures answer { result
        ≡ answer_code (outcome (ops.replace place object.now)
        (state chart.old records.old values.old)).answer }
    ensures leaves { state chart.new records.new values.new
        ≡ (outcome (ops.replace place object.now) (state chart.old records.old values.old)).leaves }
{
    verdict_code(calls_editor::replace(chart, place, object, records, values))
}

// Puts an object at a place of the chart and brings the tables of both players up to date.
#[unsafe(no_mangle)]
pub extern "C" fn difficulty_replace_both(
    chart: &mut [u8],
    settings: &[u8],
    place: usize,
    object: &[u8],
    records: &mut [f64],
    values: &mut [f64],
    second_records: &mut [f64],
    second_values: &mut [f64],
) -> u64
    ensures answer { result ≡ verdict_code (both_answer settings.now (ops.replace place object.now)
        (pair chart.old records.old values.old second_records.old second_values.old)) }
    ensures leaves { pair chart.new records.new values.new second_records.new second_values.new
        ≡ both_leaves settings.now (ops.replace place object.now)
        (pair chart.old records.old values.old second_records.old second_values.old) }
{
    verdict_code(calls_editor::replace_both(
        chart,
        settings,
        place,
        object,
        records,
        values,
        second_records,
        second_values,
    ))
}

// Puts an object in before a place of the chart, in a buffer with room for it.
#[unsafe(no_mangle)]
pub extern "C" fn difficulty_insert(
    chart: &mut [u8],
    place: usize,
    object: &[u8],
    records: &mut [f64],
    values: &mut [f64],
) -> u64
    ensures answer { result
        ≡ answer_code (outcome (ops.insert place object.now)
        (state chart.old records.old values.old)).answer }
    ensures leaves { state chart.new records.new values.new
        ≡ (outcome (ops.insert place object.now) (state chart.old records.old values.old)).leaves }
{
    verdict_code(calls_editor::insert(chart, place, object, records, values))
}

// Puts an object in before a place of the chart, in a buffer with room for it, for both players.
#[unsafe(no_mangle)]
pub extern "C" fn difficulty_insert_both(
    chart: &mut [u8],
    settings: &[u8],
    place: usize,
    object: &[u8],
    records: &mut [f64],
    values: &mut [f64],
    second_records: &mut [f64],
    second_values: &mut [f64],
) -> u64
    ensures answer { result ≡ verdict_code (both_answer settings.now (ops.insert place object.now)
        (pair chart.old records.old values.old second_records.old second_values.old)) }
    ensures leaves { pair chart.new records.new values.new second_records.new second_values.new
        ≡ both_leaves settings.now (ops.insert place object.now)
        (pair chart.old records.old values.old second_records.old second_values.old) }
{
    verdict_code(calls_editor::insert_both(
        chart,
        settings,
        place,
        object,
        records,
        values,
        second_records,
        second_values,
    ))
}

// Takes the object at a place out of the chart.
#[unsafe(no_mangle)]
pub extern "C" fn difficulty_remove(
    chart: &mut [u8],
    place: usize,
    records: &mut [f64],
    values: &mut [f64],
) -> u64
    ensures answer { result
        ≡ answer_code (outcome (ops.remove place) (state chart.old records.old values.old)).answer }
    ensures leaves { state chart.new records.new values.new
        ≡ (outcome (ops.remove place) (state chart.old records.old values.old)).leaves }
{
    verdict_code(calls_editor::remove(chart, place, records, values))
}

// Takes the object at a place out of the chart, for both players.
#[unsafe(no_mangle)]
pub extern "C" fn difficulty_remove_both(
    chart: &mut [u8],
    settings: &[u8],
    place: usize,
    records: &mut [f64],
    values: &mut [f64],
    second_records: &mut [f64],
    second_values: &mut [f64],
) -> u64
    ensures answer { result ≡ verdict_code (both_answer settings.now (ops.remove place)
        (pair chart.old records.old values.old second_records.old second_values.old)) }
    ensures leaves { pair chart.new records.new values.new second_records.new second_values.new
        ≡ both_leaves settings.now (ops.remove place)
        (pair chart.old records.old values.old second_records.old second_values.old) }
{
    verdict_code(calls_editor::remove_both(
        chart,
        settings,
        place,
        records,
        values,
        second_records,
        second_values,
    ))
}

// Why a reading is refused whose answer has no room.
fn no_room(chart: &[u8]) -> Refusal
    ensures { result ≡ no_room chart.now }
{
    if chart_opening::header_ok(chart) {
        return Refusal::Table;
    }
    Refusal::Header
}

// Why a reading of the second player is refused whose answer has no room: 7 right after 1 and settings of another length.
fn no_room_as(chart: &[u8], settings: &[u8]) -> Refusal
    ensures { Err result ≡ second_verdict settings.now chart.now (Err Table) }
{
    if !chart_players::header_ok_as(chart, settings) {
        return Refusal::Header;
    }
    if settings.len() != chart_players::SETTINGS_SIZE {
        return Refusal::Setting;
    }
    Refusal::Table
}

// The record of a place, for the second player and an answer with as much room.
fn record_into_as(
    chart: &[u8],
    settings: &[u8],
    records: &[f64],
    place: usize,
    room: usize,
) -> Result<OsuDifficultyObject, Refusal>
    ensures { outcome_with (record_answer result) chart.now records.now []
        ≡ read_into_as settings.now 16 room (ops.read_record place) (state chart.now records.now []) }
{
    if room < calls::RECORD_WIDTH {
        return Err(no_room_as(chart, settings));
    }
    calls_readings::read_record_as(chart, settings, records, place)
}

// Writes the record of a place, as the table has it: sixteen numbers, in the table's order, for the second player with these settings.
#[unsafe(no_mangle)]
pub extern "C" fn difficulty_read_record_as(
    chart: &[u8],
    settings: &[u8],
    records: &[f64],
    place: usize,
    out: &mut [f64],
) -> u64
    ensures answer { result
        ≡ answer_code (read_into_as settings.now 16 (length out.old) (ops.read_record place)
        (state chart.now records.now [])).answer }
    ensures out { out.new
        ≡ put 0 (numbers_of (read_into_as settings.now 16 (length out.old) (ops.read_record place)
        (state chart.now records.now [])).answer)
        out.old }
{
    match record_into_as(chart, settings, records, place, out.len()) {
        Err(r) => code(r),
        Ok(x) => {
            osu_records::put_record(out, 0, x);
            0
        }
    }
}

// The record of a place, for an answer with as much room.
fn record_into(
    chart: &[u8],
    records: &[f64],
    place: usize,
    room: usize,
) -> Result<OsuDifficultyObject, Refusal>
    ensures { outcome_with (record_answer result) chart.now records.now []
        ≡ read_into 16 room (ops.read_record place) (state chart.now records.now []) }
{
    if room < calls::RECORD_WIDTH {
        return Err(no_room(chart));
    }
    calls_readings::read_record(chart, records, place)
}

// Writes the record of a place, as the table has it: sixteen numbers, in the table's order.
#[unsafe(no_mangle)]
pub extern "C" fn difficulty_read_record(
    chart: &[u8],
    records: &[f64],
    place: usize,
    out: &mut [f64],
) -> u64
    ensures answer { result
        ≡ answer_code (read_into 16 (length out.old) (ops.read_record place)
        (state chart.now records.now [])).answer }
    ensures out { out.new
        ≡ put 0 (numbers_of (read_into 16 (length out.old) (ops.read_record place)
        (state chart.now records.now [])).answer)
        out.old }
{
    match record_into(chart, records, place, out.len()) {
        Err(r) => code(r),
        Ok(x) => {
            osu_records::put_record(out, 0, x);
            0
        }
    }
}

// The values of a place, for the second player and an answer with as much room.
fn values_into_as(
    chart: &[u8],
    settings: &[u8],
    values: &[f64],
    place: usize,
    room: usize,
) -> Result<Values, Refusal>
    ensures { outcome_with (values_answer result) chart.now [] values.now
        ≡ read_into_as settings.now 5 room (ops.read_values place) (state chart.now [] values.now) }
{
    if room < calls::VALUE_WIDTH {
        return Err(no_room_as(chart, settings));
    }
    calls_readings::read_values_as(chart, settings, values, place)
}

// Writes the five values of a place, as the table has them, for the second player with these settings.
#[unsafe(no_mangle)]
pub extern "C" fn difficulty_read_values_as(
    chart: &[u8],
    settings: &[u8],
    values: &[f64],
    place: usize,
    out: &mut [f64],
) -> u64
    ensures answer { result
        ≡ answer_code (read_into_as settings.now 5 (length out.old)
        (ops.read_values place) (state chart.now [] values.now)).answer }
    ensures out { out.new
        ≡ put 0 (numbers_of (read_into_as settings.now 5 (length out.old) (ops.read_values place)
        (state chart.now [] values.now)).answer)
        out.old }
{
    match values_into_as(chart, settings, values, place, out.len()) {
        Err(r) => code(r),
        Ok(v) => {
            eval_values::put_values(out, 0, v);
            0
        }
    }
}

// The values of a place, for an answer with as much room.
fn values_into(chart: &[u8], values: &[f64], place: usize, room: usize) -> Result<Values, Refusal>
    ensures { outcome_with (values_answer result) chart.now [] values.now
        ≡ read_into 5 room (ops.read_values place) (state chart.now [] values.now) }
{
    if room < calls::VALUE_WIDTH {
        return Err(no_room(chart));
    }
    calls_readings::read_values(chart, values, place)
}

// Writes the five values of a place, as the table has them.
#[unsafe(no_mangle)]
pub extern "C" fn difficulty_read_values(
    chart: &[u8],
    values: &[f64],
    place: usize,
    out: &mut [f64],
) -> u64
    ensures answer { result
        ≡ answer_code (read_into 5 (length out.old) (ops.read_values place) (state chart.now [] values.now)).answer }
    ensures out { out.new
        ≡ put 0 (numbers_of (read_into 5 (length out.old) (ops.read_values place)
        (state chart.now [] values.now)).answer)
        out.old }
{
    match values_into(chart, values, place, out.len()) {
        Err(r) => code(r),
        Ok(v) => {
            eval_values::put_values(out, 0, v);
            0
        }
    }
}

// Aim in its parts at a place, for the second player and an answer with as much room.
fn aim_into_as(
    chart: &[u8],
    settings: &[u8],
    records: &[f64],
    place: usize,
    room: usize,
) -> Result<AimDetail, Refusal>
    ensures { outcome_with (aim_answer result) chart.now records.now []
        ≡ read_into_as settings.now aim_width room (ops.read_detail kinds.aim_parts place) (state chart.now records.now []) }
{
    if room < AIM_WIDTH {
        return Err(no_room_as(chart, settings));
    }
    calls_readings::read_aim_parts_as(chart, settings, records, place)
}

// The rule that answered, as a number.
fn rule_number(rule: AimRule) -> f64
    ensures { result ≡ rule_number rule }
{
    match rule {
        AimRule::TooFew => 0.0,
        AimRule::Spinner => 1.0,
        AimRule::Acute => 2.0,
        AimRule::Wide => 3.0,
    }
}

// Writes aim in its parts, with sliders and then without.
fn put_aim(out: &mut [f64], d: AimDetail)
    requires { aim_width ≤ length out.old }
    ensures { out.new ≡ put 0 (finding_row (aim_finding d)) out.old }
{
    let p = d.parts;
    let q = d.parts_no_sliders;
    put_row(
        out,
        &[
            d.value,
            p.curr_vel,
            p.prev_vel,
            p.wide,
            p.acute,
            p.wiggle,
            p.vel_change,
            p.slider,
            rule_number(p.rule),
            d.value_no_sliders,
            q.curr_vel,
            q.prev_vel,
            q.wide,
            q.acute,
            q.wiggle,
            q.vel_change,
            q.slider,
            rule_number(q.rule),
        ],
    );
}

// Writes aim's value at a place with its parts and the rule that answered, and the same without sliders, for the second player with these settings.
#[unsafe(no_mangle)]
pub extern "C" fn difficulty_read_aim_parts_as(
    chart: &[u8],
    settings: &[u8],
    records: &[f64],
    place: usize,
    out: &mut [f64],
) -> u64
    ensures answer { result ≡ answer_code (read_into_as settings.now aim_width (length out.old) (ops.read_detail kinds.aim_parts place)
        (state chart.now records.now [])).answer }
    ensures out { out.new ≡ put 0 (numbers_of (read_into_as settings.now aim_width (length out.old)
        (ops.read_detail kinds.aim_parts place)
        (state chart.now records.now [])).answer) out.old }
{
    match aim_into_as(chart, settings, records, place, out.len()) {
        Err(r) => code(r),
        Ok(d) => {
            put_aim(out, d);
            0
        }
    }
}

// Writes aim's value at a place with its parts and the rule that answered, and the same without sliders.
#[unsafe(no_mangle)]
pub extern "C" fn difficulty_read_aim_parts(
    chart: &[u8],
    records: &[f64],
    place: usize,
    out: &mut [f64],
) -> u64
    ensures answer { result ≡ answer_code (read_into aim_width (length out.old) (ops.read_detail kinds.aim_parts place)
        (state chart.now records.now [])).answer }
    ensures out { out.new ≡ put 0 (numbers_of (read_into aim_width (length out.old) (ops.read_detail kinds.aim_parts place)
        (state chart.now records.now [])).answer) out.old }
{
    if chart.len() < chart_fields::HEADER_SIZE {
        return code(Refusal::Header);
    }
    difficulty_read_aim_parts_as(chart, &chart[32..80], records, place, out)
}

// The rhythm value of a place with its comparisons, for the second player and an answer with as much room.
fn rhythm_into_as(
    chart: &[u8],
    settings: &[u8],
    records: &[f64],
    place: usize,
    room: usize,
) -> Result<Counted, Refusal>
    ensures { outcome_with (rhythm_answer result) chart.now records.now []
        ≡ read_into_as settings.now rhythm_width room (ops.read_detail kinds.rhythm place) (state chart.now records.now []) }
{
    if room < RHYTHM_WIDTH {
        return Err(no_room_as(chart, settings));
    }
    calls_readings::read_rhythm_as(chart, settings, records, place)
}

// Writes the rhythm value of a place, and how often an island was compared with a kept one for it, for the second player with these settings.
#[unsafe(no_mangle)]
pub extern "C" fn difficulty_read_rhythm_as(
    chart: &[u8],
    settings: &[u8],
    records: &[f64],
    place: usize,
    out: &mut [f64],
) -> u64
    ensures answer { result ≡ answer_code (read_into_as settings.now rhythm_width (length out.old) (ops.read_detail kinds.rhythm place)
        (state chart.now records.now [])).answer }
    ensures out { out.new ≡ put 0 (numbers_of (read_into_as settings.now rhythm_width (length out.old)
        (ops.read_detail kinds.rhythm place)
        (state chart.now records.now [])).answer) out.old }
{
    match rhythm_into_as(chart, settings, records, place, out.len()) {
        Err(r) => code(r),
        Ok(c) => {
            put_row(out, &[c.value, c.comparisons as u32 as f64]);
            0
        }
    }
}

// Writes the rhythm value of a place, and how often an island was compared with a kept one for it.
#[unsafe(no_mangle)]
pub extern "C" fn difficulty_read_rhythm(
    chart: &[u8],
    records: &[f64],
    place: usize,
    out: &mut [f64],
) -> u64
    ensures answer { result ≡ answer_code (read_into rhythm_width (length out.old) (ops.read_detail kinds.rhythm place)
        (state chart.now records.now [])).answer }
    ensures out { out.new ≡ put 0 (numbers_of (read_into rhythm_width (length out.old) (ops.read_detail kinds.rhythm place)
        (state chart.now records.now [])).answer) out.old }
{
    if chart.len() < chart_fields::HEADER_SIZE {
        return code(Refusal::Header);
    }
    difficulty_read_rhythm_as(chart, &chart[32..80], records, place, out)
}

// Why a figure of the second player without room is refused.
fn refuse_sums(chart: &[u8], settings: &[u8], entries: usize) -> Refusal
    ensures { Err result ≡ second_verdict settings.now chart.now
        (sum_verdict (under settings.now chart.now) entries true) }
{
    match chart_players::check_as(chart, settings, entries) {
        Err(r) => r,
        Ok(()) => Refusal::Table,
    }
}

// The totals, for the second player, where the answer has room or is cramped.
fn totals_into(
    chart: &[u8],
    settings: &[u8],
    values: &[f64],
    aim: &mut [f64],
    aim_no_sliders: &mut [f64],
    speed: &mut [f64],
    flashlight: &mut [f64],
    cramped: bool,
) -> Result<Skills, Refusal>
    ensures answer { outcome_with (totals_answer result) chart.now [] values.now
        ≡ figure_into_as settings.now kinds.totals cramped
        (scratch_of aim.old aim_no_sliders.old speed.old flashlight.old)
        (state chart.now [] values.now) }
    ensures scratch { scratch_of aim.new aim_no_sliders.new speed.new flashlight.new
        ≡ scratch_into_as settings.now kinds.totals cramped
        (scratch_of aim.old aim_no_sliders.old speed.old flashlight.old)
        (state chart.now [] values.now) }
{
    if cramped {
        return Err(refuse_sums(chart, settings, values.len() / calls::VALUE_WIDTH));
    }
    calls_figures::totals_as(
        chart,
        settings,
        values,
        aim,
        aim_no_sliders,
        speed,
        flashlight,
    )
}

// Writes the four totals.
fn put_totals(out: &mut [f64], t: Skills)
    requires { totals_width ≤ length out.old }
    ensures { out.new ≡ put 0 (totals_row t) out.old }
{
    put_row(out, &[t.aim, t.aim_no_sliders, t.speed, t.flashlight]);
}

// Writes the four totals over the values in the table; times come from the chart. Carried out, all scratch is 0. For the second player with these settings.
#[unsafe(no_mangle)]
pub extern "C" fn difficulty_totals_as(
    chart: &[u8],
    settings: &[u8],
    values: &[f64],
    aim: &mut [f64],
    aim_no_sliders: &mut [f64],
    speed: &mut [f64],
    flashlight: &mut [f64],
    out: &mut [f64],
) -> u64
    ensures answer { result
        ≡ answer_code (figure_into_as settings.now kinds.totals (ltb (length out.old) totals_width)
        (scratch_of aim.old aim_no_sliders.old speed.old flashlight.old)
        (state chart.now [] values.now)).answer }
    ensures scratch { scratch_of aim.new aim_no_sliders.new speed.new flashlight.new
        ≡ scratch_into_as settings.now kinds.totals (ltb (length out.old) totals_width)
        (scratch_of aim.old aim_no_sliders.old speed.old flashlight.old)
        (state chart.now [] values.now) }
    ensures out { out.new
        ≡ put 0 (numbers_of (figure_into_as settings.now kinds.totals (ltb (length out.old) totals_width)
        (scratch_of aim.old aim_no_sliders.old speed.old flashlight.old)
        (state chart.now [] values.now)).answer) out.old }
{
    match totals_into(
        chart,
        settings,
        values,
        aim,
        aim_no_sliders,
        speed,
        flashlight,
        out.len() < TOTALS_WIDTH,
    ) {
        Err(r) => code(r),
        Ok(t) => {
            put_totals(out, t);
            0
        }
    }
}

// Writes the four totals over the values in the table; times come from the chart. Carried out, all scratch is 0.
#[unsafe(no_mangle)]
pub extern "C" fn difficulty_totals(
    chart: &[u8],
    values: &[f64],
    aim: &mut [f64],
    aim_no_sliders: &mut [f64],
    speed: &mut [f64],
    flashlight: &mut [f64],
    out: &mut [f64],
) -> u64
    ensures answer { result
        ≡ answer_code (figure_into kinds.totals (ltb (length out.old) totals_width)
        (scratch_of aim.old aim_no_sliders.old speed.old flashlight.old)
        (state chart.now [] values.now)).answer }
    ensures scratch { scratch_of aim.new aim_no_sliders.new speed.new flashlight.new
        ≡ scratch_into kinds.totals (ltb (length out.old) totals_width)
        (scratch_of aim.old aim_no_sliders.old speed.old flashlight.old)
        (state chart.now [] values.now) }
    ensures out { out.new
        ≡ put 0 (numbers_of (figure_into kinds.totals (ltb (length out.old) totals_width)
        (scratch_of aim.old aim_no_sliders.old speed.old flashlight.old)
        (state chart.now [] values.now)).answer) out.old }
{
    if chart.len() < chart_fields::HEADER_SIZE {
        return code(Refusal::Header);
    }
    difficulty_totals_as(
        chart,
        &chart[32..80],
        values,
        aim,
        aim_no_sliders,
        speed,
        flashlight,
        out,
    )
}

// The totals after the first m objects, for the second player, where the answer has room or is cramped.
fn totals_to_into(
    chart: &[u8],
    settings: &[u8],
    values: &[f64],
    m: usize,
    aim: &mut [f64],
    aim_no_sliders: &mut [f64],
    speed: &mut [f64],
    flashlight: &mut [f64],
    cramped: bool,
) -> Result<Skills, Refusal>
    ensures answer { outcome_with (totals_answer result) chart.now [] values.now
        ≡ figure_into_as settings.now (kinds.totals_to m) cramped
        (scratch_of aim.old aim_no_sliders.old speed.old flashlight.old)
        (state chart.now [] values.now) }
    ensures scratch { scratch_of aim.new aim_no_sliders.new speed.new flashlight.new
        ≡ scratch_into_as settings.now (kinds.totals_to m) cramped
        (scratch_of aim.old aim_no_sliders.old speed.old flashlight.old)
        (state chart.now [] values.now) }
{
    if cramped {
        return Err(refuse_sums(chart, settings, values.len() / calls::VALUE_WIDTH));
    }
    calls_figures::totals_to_as(
        chart,
        settings,
        values,
        m,
        aim,
        aim_no_sliders,
        speed,
        flashlight,
    )
}

// Writes the four totals reached after the first m objects. Carried out, all scratch is 0. For the second player with these settings.
#[unsafe(no_mangle)]
pub extern "C" fn difficulty_totals_to_as(
    chart: &[u8],
    settings: &[u8],
    values: &[f64],
    m: usize,
    aim: &mut [f64],
    aim_no_sliders: &mut [f64],
    speed: &mut [f64],
    flashlight: &mut [f64],
    out: &mut [f64],
) -> u64
    ensures answer { result ≡ answer_code (figure_into_as settings.now (kinds.totals_to m) (ltb (length out.old) totals_width)
        (scratch_of aim.old aim_no_sliders.old speed.old flashlight.old)
        (state chart.now [] values.now)).answer }
    ensures scratch { scratch_of aim.new aim_no_sliders.new speed.new flashlight.new
        ≡ scratch_into_as settings.now (kinds.totals_to m) (ltb (length out.old) totals_width)
        (scratch_of aim.old aim_no_sliders.old speed.old flashlight.old)
        (state chart.now [] values.now) }
    ensures out { out.new ≡ put 0 (numbers_of (figure_into_as settings.now (kinds.totals_to m) (ltb
        (length out.old) totals_width)
        (scratch_of aim.old aim_no_sliders.old speed.old flashlight.old)
        (state chart.now [] values.now)).answer) out.old }
{
    match totals_to_into(
        chart,
        settings,
        values,
        m,
        aim,
        aim_no_sliders,
        speed,
        flashlight,
        out.len() < TOTALS_WIDTH,
    ) {
        Err(r) => code(r),
        Ok(t) => {
            put_totals(out, t);
            0
        }
    }
}

// Writes the four totals reached after the first m objects. Carried out, all scratch is 0.
#[unsafe(no_mangle)]
pub extern "C" fn difficulty_totals_to(
    chart: &[u8],
    values: &[f64],
    m: usize,
    aim: &mut [f64],
    aim_no_sliders: &mut [f64],
    speed: &mut [f64],
    flashlight: &mut [f64],
    out: &mut [f64],
) -> u64
    ensures answer { result ≡ answer_code (figure_into (kinds.totals_to m) (ltb (length out.old) totals_width)
        (scratch_of aim.old aim_no_sliders.old speed.old flashlight.old)
        (state chart.now [] values.now)).answer }
    ensures scratch { scratch_of aim.new aim_no_sliders.new speed.new flashlight.new
        ≡ scratch_into (kinds.totals_to m) (ltb (length out.old) totals_width)
        (scratch_of aim.old aim_no_sliders.old speed.old flashlight.old)
        (state chart.now [] values.now) }
    ensures out { out.new ≡ put 0 (numbers_of (figure_into (kinds.totals_to m) (ltb (length out.old) totals_width)
        (scratch_of aim.old aim_no_sliders.old speed.old flashlight.old)
        (state chart.now [] values.now)).answer) out.old }
{
    if chart.len() < chart_fields::HEADER_SIZE {
        return code(Refusal::Header);
    }
    difficulty_totals_to_as(
        chart,
        &chart[32..80],
        values,
        m,
        aim,
        aim_no_sliders,
        speed,
        flashlight,
        out,
    )
}

// Fills a list of four numbers an entry with the totals reached after every number of objects, from 0 to N. Carried out, all scratch is 0. For the second
// player with these settings.
#[unsafe(no_mangle)]
pub extern "C" fn difficulty_totals_while_playing_as(
    chart: &[u8],
    settings: &[u8],
    values: &[f64],
    list: &mut [f64],
    aim: &mut [f64],
    aim_no_sliders: &mut [f64],
    speed: &mut [f64],
    flashlight: &mut [f64],
) -> u64
    ensures answer { result ≡ verdict_code (verdict_as settings.now (ops.figure (kinds.playing (length list.old / totals_width)) (lengths
        (scratch_of aim.old aim_no_sliders.old speed.old flashlight.old)))
        (state chart.now [] values.now)) }
    ensures list { list.new ≡ list_after (outcome_as settings.now
        (ops.figure (kinds.playing (length list.old / totals_width)) (lengths
        (scratch_of aim.old aim_no_sliders.old speed.old flashlight.old)))
        (state chart.now [] values.now)).answer list.old }
    ensures scratch { scratch_of aim.new aim_no_sliders.new speed.new flashlight.new
        ≡ scratch_after_as settings.now (kinds.playing
        (length list.old / totals_width)) (state chart.now [] values.now)
        (scratch_of aim.old aim_no_sliders.old speed.old flashlight.old) }
{
    verdict_code(calls_figures::totals_while_playing_as(
        chart,
        settings,
        values,
        list,
        aim,
        aim_no_sliders,
        speed,
        flashlight,
    ))
}

// Fills a list of four numbers an entry with the totals reached after every number of objects, from 0 to N. Carried out, all scratch is 0.
#[unsafe(no_mangle)]
pub extern "C" fn difficulty_totals_while_playing(
    chart: &[u8],
    values: &[f64],
    list: &mut [f64],
    aim: &mut [f64],
    aim_no_sliders: &mut [f64],
    speed: &mut [f64],
    flashlight: &mut [f64],
) -> u64
    ensures answer { result ≡ verdict_code (verdict_in (ops.figure (kinds.playing (length list.old / totals_width)) (lengths
        (scratch_of aim.old aim_no_sliders.old speed.old flashlight.old)))
        (state chart.now [] values.now)) }
    ensures list { list.new ≡ list_after (outcome (ops.figure (kinds.playing (length list.old / totals_width)) (lengths
        (scratch_of aim.old aim_no_sliders.old speed.old flashlight.old)))
        (state chart.now [] values.now)).answer list.old }
    ensures scratch { scratch_of aim.new aim_no_sliders.new speed.new flashlight.new
        ≡ scratch_after (kinds.playing (length list.old / totals_width)) (state chart.now [] values.now)
        (scratch_of aim.old aim_no_sliders.old speed.old flashlight.old) }
{
    if chart.len() < chart_fields::HEADER_SIZE {
        return code(Refusal::Header);
    }
    difficulty_totals_while_playing_as(
        chart,
        &chart[32..80],
        values,
        list,
        aim,
        aim_no_sliders,
        speed,
        flashlight,
    )
}

// The seven counts, for the second player, where the answer has room or is cramped.
fn counts_into(
    chart: &[u8],
    settings: &[u8],
    values: &[f64],
    aim: &mut [f64],
    aim_no_sliders: &mut [f64],
    speed: &mut [f64],
    flashlight: &mut [f64],
    cramped: bool,
) -> Result<ObjectCounts, Refusal>
    ensures answer { outcome_with (counts_answer result) chart.now [] values.now
        ≡ figure_into_as settings.now kinds.counts cramped
        (scratch_of aim.old aim_no_sliders.old speed.old flashlight.old)
        (state chart.now [] values.now) }
    ensures scratch { scratch_of aim.new aim_no_sliders.new speed.new flashlight.new
        ≡ scratch_into_as settings.now kinds.counts cramped
        (scratch_of aim.old aim_no_sliders.old speed.old flashlight.old)
        (state chart.now [] values.now) }
{
    if cramped {
        return Err(refuse_sums(chart, settings, values.len() / calls::VALUE_WIDTH));
    }
    calls_figures::counts_as(
        chart,
        settings,
        values,
        aim,
        aim_no_sliders,
        speed,
        flashlight,
    )
}

// Writes the seven counts.
fn put_counts(out: &mut [f64], c: ObjectCounts)
    requires { counts_width ≤ length out.old }
    ensures { out.new ≡ put 0 (counts_row c) out.old }
{
    put_row(
        out,
        &[
            c.aim_difficult_strain_count,
            c.aim_no_sliders_difficult_strain_count,
            c.speed_difficult_strain_count,
            c.aim_no_sliders_top_weighted_slider_count,
            c.speed_top_weighted_slider_count,
            c.aim_difficult_slider_count,
            c.speed_note_count,
        ],
    );
}

// Writes how many objects carry the chart, seven counts. Carried out, all scratch is 0. For the second player with these settings.
#[unsafe(no_mangle)]
pub extern "C" fn difficulty_counts_as(
    chart: &[u8],
    settings: &[u8],
    values: &[f64],
    aim: &mut [f64],
    aim_no_sliders: &mut [f64],
    speed: &mut [f64],
    flashlight: &mut [f64],
    out: &mut [f64],
) -> u64
    ensures answer { result ≡ answer_code (figure_into_as settings.now kinds.counts (ltb (length out.old) counts_width)
        (scratch_of aim.old aim_no_sliders.old speed.old flashlight.old)
        (state chart.now [] values.now)).answer }
    ensures scratch { scratch_of aim.new aim_no_sliders.new speed.new flashlight.new
        ≡ scratch_into_as settings.now kinds.counts (ltb (length out.old) counts_width)
        (scratch_of aim.old aim_no_sliders.old speed.old flashlight.old)
        (state chart.now [] values.now) }
    ensures out { out.new ≡ put 0 (numbers_of (figure_into_as settings.now kinds.counts (ltb (length out.old) counts_width)
        (scratch_of aim.old aim_no_sliders.old speed.old flashlight.old)
        (state chart.now [] values.now)).answer) out.old }
{
    match counts_into(
        chart,
        settings,
        values,
        aim,
        aim_no_sliders,
        speed,
        flashlight,
        out.len() < COUNTS_WIDTH,
    ) {
        Err(r) => code(r),
        Ok(c) => {
            put_counts(out, c);
            0
        }
    }
}

// Writes how many objects carry the chart, seven counts. Carried out, all scratch is 0.
#[unsafe(no_mangle)]
pub extern "C" fn difficulty_counts(
    chart: &[u8],
    values: &[f64],
    aim: &mut [f64],
    aim_no_sliders: &mut [f64],
    speed: &mut [f64],
    flashlight: &mut [f64],
    out: &mut [f64],
) -> u64
    ensures answer { result ≡ answer_code (figure_into kinds.counts (ltb (length out.old) counts_width)
        (scratch_of aim.old aim_no_sliders.old speed.old flashlight.old)
        (state chart.now [] values.now)).answer }
    ensures scratch { scratch_of aim.new aim_no_sliders.new speed.new flashlight.new
        ≡ scratch_into kinds.counts (ltb (length out.old) counts_width)
        (scratch_of aim.old aim_no_sliders.old speed.old flashlight.old)
        (state chart.now [] values.now) }
    ensures out { out.new ≡ put 0 (numbers_of (figure_into kinds.counts (ltb (length out.old) counts_width)
        (scratch_of aim.old aim_no_sliders.old speed.old flashlight.old)
        (state chart.now [] values.now)).answer) out.old }
{
    if chart.len() < chart_fields::HEADER_SIZE {
        return code(Refusal::Header);
    }
    difficulty_counts_as(
        chart,
        &chart[32..80],
        values,
        aim,
        aim_no_sliders,
        speed,
        flashlight,
        out,
    )
}

// Number i of those that come with ratings; a NaN where there are fewer.
fn number_at(numbers: &[f64], i: usize) -> f64
    ensures { result ≡ get_or numbers.now i nan }
{
    if i < numbers.len() {
        return numbers[i];
    }
    num_floats::nan()
}

// What comes with ratings.
fn asked_of(mods: u32, given: u32, numbers: &[f64]) -> Asked
    ensures { result ≡ asked_of mods given numbers.now }
{
    let approach_rate = number_at(numbers, 0);
    let overall_difficulty = number_at(numbers, 1);
    let base_multiplier = number_at(numbers, 2);
    let strength = number_at(numbers, 3);
    let scale = number_at(numbers, 4);
    let mods = Mods::from_word(mods, given % 2 == 1, strength, given / 2 % 2 == 1, scale);
    Asked {
        mods: mods,
        approach_rate: approach_rate,
        overall_difficulty: overall_difficulty,
        base_multiplier: base_multiplier,
    }
}

// Whether there is no room for the ratings, or too few numbers.
fn ratings_cramped(room: usize, numbers: usize) -> bool
    ensures { result ≡ ratings_cramped room numbers }
{
    (room < RATINGS_WIDTH) | (numbers < NUMBERS_WIDTH)
}

// The ratings and the stars, for the second player, where the answer has room or is cramped.
fn ratings_into(
    chart: &[u8],
    settings: &[u8],
    values: &[f64],
    asked: Asked,
    aim: &mut [f64],
    aim_no_sliders: &mut [f64],
    speed: &mut [f64],
    flashlight: &mut [f64],
    cramped: bool,
) -> Result<Ratings, Refusal>
    ensures answer { outcome_with (ratings_answer result) chart.now [] values.now
        ≡ figure_into_as settings.now (kinds.ratings asked) cramped
        (scratch_of aim.old aim_no_sliders.old speed.old flashlight.old)
        (state chart.now [] values.now) }
    ensures scratch { scratch_of aim.new aim_no_sliders.new speed.new flashlight.new
        ≡ scratch_into_as settings.now (kinds.ratings asked) cramped
        (scratch_of aim.old aim_no_sliders.old speed.old flashlight.old)
        (state chart.now [] values.now) }
{
    if cramped {
        return Err(refuse_sums(chart, settings, values.len() / calls::VALUE_WIDTH));
    }
    calls_figures::ratings_as(
        chart,
        settings,
        values,
        asked,
        aim,
        aim_no_sliders,
        speed,
        flashlight,
    )
}

// Writes the three ratings and the stars.
fn put_ratings(out: &mut [f64], r: Ratings)
    requires { ratings_width ≤ length out.old }
    ensures { out.new ≡ put 0 (ratings_row r) out.old }
{
    put_row(out, &[r.aim, r.speed, r.flashlight, r.stars]);
}

// Writes aim, speed and flashlight ratings and the stars, under mods and with numbers that come with the call. Carried out, all scratch is 0. For the
// second player with these settings.
#[unsafe(no_mangle)]
pub extern "C" fn difficulty_ratings_as(
    chart: &[u8],
    settings: &[u8],
    values: &[f64],
    mods: u32,
    given: u32,
    numbers: &[f64],
    aim: &mut [f64],
    aim_no_sliders: &mut [f64],
    speed: &mut [f64],
    flashlight: &mut [f64],
    out: &mut [f64],
) -> u64
    ensures answer { result ≡ answer_code (figure_into_as settings.now (kinds.ratings (asked_of mods given numbers.now))
        (ratings_cramped (length out.old) (length numbers.now))
        (scratch_of aim.old aim_no_sliders.old speed.old flashlight.old)
        (state chart.now [] values.now)).answer }
    ensures scratch { scratch_of aim.new aim_no_sliders.new speed.new flashlight.new
        ≡ scratch_into_as settings.now (kinds.ratings (asked_of mods given numbers.now))
        (ratings_cramped (length out.old) (length numbers.now))
        (scratch_of aim.old aim_no_sliders.old speed.old flashlight.old)
        (state chart.now [] values.now) }
    ensures out { out.new ≡ put 0 (numbers_of (figure_into_as settings.now (kinds.ratings (asked_of mods given numbers.now))
        (ratings_cramped (length out.old) (length numbers.now))
        (scratch_of aim.old aim_no_sliders.old speed.old flashlight.old)
        (state chart.now [] values.now)).answer) out.old }
{
    let cramped = ratings_cramped(out.len(), numbers.len());
    let asked = asked_of(mods, given, numbers);
    match ratings_into(
        chart,
        settings,
        values,
        asked,
        aim,
        aim_no_sliders,
        speed,
        flashlight,
        cramped,
    ) {
        Err(r) => code(r),
        Ok(x) => {
            put_ratings(out, x);
            0
        }
    }
}

// Writes aim, speed and flashlight ratings and the stars, under mods and with numbers that come with the call. Carried out, all scratch is 0.
#[unsafe(no_mangle)]
pub extern "C" fn difficulty_ratings(
    chart: &[u8],
    values: &[f64],
    mods: u32,
    given: u32,
    numbers: &[f64],
    aim: &mut [f64],
    aim_no_sliders: &mut [f64],
    speed: &mut [f64],
    flashlight: &mut [f64],
    out: &mut [f64],
) -> u64
    ensures answer { result ≡ answer_code (figure_into (kinds.ratings (asked_of mods given numbers.now))
        (ratings_cramped (length out.old) (length numbers.now))
        (scratch_of aim.old aim_no_sliders.old speed.old flashlight.old)
        (state chart.now [] values.now)).answer }
    ensures scratch { scratch_of aim.new aim_no_sliders.new speed.new flashlight.new
        ≡ scratch_into (kinds.ratings (asked_of mods given numbers.now)) (ratings_cramped (length out.old) (length numbers.now))
        (scratch_of aim.old aim_no_sliders.old speed.old flashlight.old)
        (state chart.now [] values.now) }
    ensures out { out.new ≡ put 0 (numbers_of (figure_into (kinds.ratings (asked_of mods given numbers.now))
        (ratings_cramped (length out.old) (length numbers.now))
        (scratch_of aim.old aim_no_sliders.old speed.old flashlight.old)
        (state chart.now [] values.now)).answer) out.old }
{
    if chart.len() < chart_fields::HEADER_SIZE {
        return code(Refusal::Header);
    }
    difficulty_ratings_as(
        chart,
        &chart[32..80],
        values,
        mods,
        given,
        numbers,
        aim,
        aim_no_sliders,
        speed,
        flashlight,
        out,
    )
}

// Puts a list of offsets into a pack in order, where the numbers that come with the call are enough or too few.
fn join_into(
    pack: &[u8],
    list: &mut [usize],
    first: usize,
    asked: Asked,
    records: &mut [f64],
    values: &mut [f64],
    aim: &mut [f64],
    aim_no_sliders: &mut [f64],
    speed: &mut [f64],
    flashlight: &mut [f64],
    cramped: bool,
) -> Result<(), Refusal>
    ensures answer { result ≡ rank_verdict_into asked cramped pack.now (buffers list.old
        (tables records.old values.old)
        (scratch_of aim.old aim_no_sliders.old speed.old flashlight.old)) }
    ensures leaves { buffers list.new (tables records.new values.new)
        (scratch_of aim.new aim_no_sliders.new speed.new flashlight.new)
        ≡ rank_into asked cramped pack.now (buffers list.old (tables records.old values.old)
        (scratch_of aim.old aim_no_sliders.old speed.old flashlight.old)) }
{
    if cramped & (0 < list.len()) {
        return pack::check(pack, list, asked, records.len(), values.len(), 0, 0, 0, 0);
    }
    pack::join(
        pack,
        list,
        first,
        asked,
        records,
        values,
        aim,
        aim_no_sliders,
        speed,
        flashlight,
    )
}

// Puts two lists of offsets into a pack that lie one behind the other, the first of them `first` long, in order as one, under mods and with numbers that come
// with the call.
#[unsafe(no_mangle)]
pub extern "C" fn difficulty_join(
    pack: &[u8],
    list: &mut [usize],
    first: usize,
    mods: u32,
    given: u32,
    numbers: &[f64],
    records: &mut [f64],
    values: &mut [f64],
    aim: &mut [f64],
    aim_no_sliders: &mut [f64],
    speed: &mut [f64],
    flashlight: &mut [f64],
) -> u64
    ensures answer { result ≡ verdict_code (rank_verdict_into (asked_of mods given numbers.now) (ltb (length numbers.now) numbers_width)
        pack.now (buffers list.old (tables records.old values.old)
        (scratch_of aim.old aim_no_sliders.old speed.old flashlight.old))) }
    ensures leaves { buffers list.new (tables records.new values.new)
        (scratch_of aim.new aim_no_sliders.new speed.new flashlight.new)
        ≡ rank_into (asked_of mods given numbers.now) (ltb (length numbers.now) numbers_width)
        pack.now (buffers list.old (tables records.old values.old)
        (scratch_of aim.old aim_no_sliders.old speed.old flashlight.old)) }
{
    let asked = asked_of(mods, given, numbers);
    verdict_code(join_into(
        pack,
        list,
        first,
        asked,
        records,
        values,
        aim,
        aim_no_sliders,
        speed,
        flashlight,
        numbers.len() < NUMBERS_WIDTH,
    ))
}

// Puts a list of offsets into a pack in order, the higher chart first, under mods and with numbers that come with the call.
#[unsafe(no_mangle)]
pub extern "C" fn difficulty_rank(
    pack: &[u8],
    list: &mut [usize],
    mods: u32,
    given: u32,
    numbers: &[f64],
    records: &mut [f64],
    values: &mut [f64],
    aim: &mut [f64],
    aim_no_sliders: &mut [f64],
    speed: &mut [f64],
    flashlight: &mut [f64],
) -> u64
    ensures answer { result ≡ verdict_code (rank_verdict_into (asked_of mods given numbers.now) (ltb (length numbers.now) numbers_width)
        pack.now (buffers list.old (tables records.old values.old)
        (scratch_of aim.old aim_no_sliders.old speed.old flashlight.old))) }
    ensures leaves { buffers list.new (tables records.new values.new)
        (scratch_of aim.new aim_no_sliders.new speed.new flashlight.new)
        ≡ rank_into (asked_of mods given numbers.now) (ltb (length numbers.now) numbers_width)
        pack.now (buffers list.old (tables records.old values.old)
        (scratch_of aim.old aim_no_sliders.old speed.old flashlight.old)) }
{
    difficulty_join(
        pack,
        list,
        0,
        mods,
        given,
        numbers,
        records,
        values,
        aim,
        aim_no_sliders,
        speed,
        flashlight,
    )
}
