// Replays scripts of calls for two players over one chart, each with tables of its own, for the programs `test_scripts` and `test_players`. The chart stands
// at the front of a memory that has at offset i behind it the byte i % 251, and each call is lent the front of that memory. Standard input has for each script
// the chart's length and bytes, 80 numbers (f64) with which all tables are filled over and over, the number of calls, and for each call its kind, the length of
// the buffer that it is lent, and what else it is given:
//   0 open: lengths of the record and the value table
//   1 replace: place, length and bytes of the object, lengths of both tables
//   2 record, 3 value: place, length of the table
//   4 totals: length of the value table, four lengths of scratch
//   5 another hand writes to the chart: offset, length and bytes
//   6 the buffer's length and FNV-1a hash
//   7 insert: as replace
//   8 remove: as replace, with an object of no bytes
//   9 such a buffer is lent from now on
//   10 what an entry of both tables holds: its place
//   11 aim with its parts, 12 the rhythm value with its comparisons: place, length of the record table
//   13 the second player has other settings from now on: length and bytes of these, which stand before its calls again
//   16 and a kind of 0, 2, 3, 4, 10, 11, 12: the same for the second player; length and bytes of its settings stand before all else
//   32 and a kind of 1, 7, 8: an edit for both; length and bytes of the second player's settings, place, length and bytes of the object, lengths of the record
//      and the value table of the first player, then of the second
// Other calls are the first player's. Then come the length of the buffer that is lent at the end, and the largest N on the way. Places of calls are u64, all
// else u32, tables and scratch are counted in numbers, all is little-endian. Every answer is a line. A script ends with the lines of 6, and whether entry 0 of
// each table and those behind the largest N hold what they held.
#![tactic(auto)]

use chart_opening::Refusal;
use lines::PATTERN;

pub mod lines;

// Scripts, and calls of a script, that are read at most.
const MOST: usize = 65536;

// Numbers of each scratch at most.
const SCRATCH: usize = 9216;

// A call of a script: the first player's unless it says whose it is.
#[derive(Clone, Copy)]
enum Call {
    First(Question),
    Second(Question),
    Change(Change),
    ChangeBoth(Change),
    Poke,
    Chart,
    Lent,
    Set,
}

// A call that leaves the chart alone.
#[derive(Clone, Copy)]
enum Question {
    Open,
    Record,
    Values,
    Totals,
    Entry,
    AimParts,
    Rhythm,
}

// An edit of the chart.
#[derive(Clone, Copy)]
enum Change {
    Replace,
    Insert,
    Remove,
}

impl From<usize> for Question {
    fn from(kind: usize) -> Question {
        match kind {
            0 => Question::Open,
            2 => Question::Record,
            3 => Question::Values,
            4 => Question::Totals,
            10 => Question::Entry,
            11 => Question::AimParts,
            _ => Question::Rhythm,
        }
    }
}

impl From<usize> for Change {
    fn from(kind: usize) -> Change {
        match kind {
            1 => Change::Replace,
            7 => Change::Insert,
            _ => Change::Remove,
        }
    }
}

impl From<usize> for Call {
    fn from(kind: usize) -> Call {
        match kind {
            1 | 7 | 8 => Call::Change(Change::from(kind)),
            5 => Call::Poke,
            6 => Call::Chart,
            9 => Call::Lent,
            13 => Call::Set,
            0..=15 => Call::First(Question::from(kind)),
            16..=31 => Call::Second(Question::from(kind - 16)),
            _ => Call::ChangeBoth(Change::from(kind - 32)),
        }
    }
}

// Writes a line.
fn show<F: FnOnce(&mut [u8]) -> usize>(put: F)
    requires { F.IsAlwaysCallable put }
{
    let mut out = [0u8; 512];
    let end = put(&mut out[..]);
    print_text::show(&out[..], end);
}

// Opens the chart, for the second player with settings of its own.
fn open(chart: &[u8], settings: Option<&[u8]>, records: &mut [f64], values: &mut [f64]) {
    let r = print_text::next_length(records.len());
    let v = print_text::next_length(values.len());
    let before = lines::hash_all(chart, records, values);
    let verdict = match settings {
        None => calls_editor::open(chart, &mut records[..r], &mut values[..v]),
        Some(s) => calls_editor::open_as(chart, s, &mut records[..r], &mut values[..v]),
    };
    let after = lines::hash_all(chart, records, values);
    show(|out| lines::put_verdict(out, verdict, b"opened\n", before, after));
}

// Reads the lengths before the totals.
fn totals(chart: &[u8], settings: Option<&[u8]>, values: &[f64]) {
    let mut aim = [lines::UNUSED; SCRATCH];
    let mut aim_no_sliders = [lines::UNUSED; SCRATCH];
    let mut speed = [lines::UNUSED; SCRATCH];
    let mut flashlight = [lines::UNUSED; SCRATCH];
    let values = &values[..print_text::next_length(values.len())];
    let aim = &mut aim[..print_text::next_length(SCRATCH)];
    let aim_no_sliders = &mut aim_no_sliders[..print_text::next_length(SCRATCH)];
    let speed = &mut speed[..print_text::next_length(SCRATCH)];
    let flashlight = &mut flashlight[..print_text::next_length(SCRATCH)];
    let answer = match settings {
        None => calls_figures::totals(chart, values, aim, aim_no_sliders, speed, flashlight),
        Some(s) => {
            calls_figures::totals_as(chart, s, values, aim, aim_no_sliders, speed, flashlight)
        }
    };
    show(|out| lines::put_totals(out, answer, aim, aim_no_sliders, speed, flashlight));
}

// Reads the place before a record, and the length of the table.
fn look_at_record(chart: &[u8], settings: Option<&[u8]>, records: &[f64]) {
    let place = print_text::next_long() as usize;
    let records = &records[..print_text::next_length(records.len())];
    let answer = match settings {
        None => calls_readings::read_record(chart, records, place),
        Some(s) => calls_readings::read_record_as(chart, s, records, place),
    };
    show(|out| {
        lines::put_answer(out, answer, b"record ", |out, at, x| {
            print_lines::put_record(out, at, place, x)
        })
    });
}

// The same before the values of a place.
fn look_at_values(chart: &[u8], settings: Option<&[u8]>, values: &[f64]) {
    let place = print_text::next_long() as usize;
    let values = &values[..print_text::next_length(values.len())];
    let answer = match settings {
        None => calls_readings::read_values(chart, values, place),
        Some(s) => calls_readings::read_values_as(chart, s, values, place),
    };
    show(|out| {
        lines::put_answer(out, answer, b"value ", |out, at, x| {
            print_lines::put_values(out, at, place, x)
        })
    });
}

// The same before aim with its parts.
fn look_at_aim_parts(chart: &[u8], settings: Option<&[u8]>, records: &[f64]) {
    let place = print_text::next_long() as usize;
    let records = &records[..print_text::next_length(records.len())];
    let answer = match settings {
        None => calls_readings::read_aim_parts(chart, records, place),
        Some(s) => calls_readings::read_aim_parts_as(chart, s, records, place),
    };
    show(|out| {
        lines::put_answer(out, answer, b"parts ", |out, at, x| {
            lines::put_detail(out, at, place, x)
        })
    });
}

// The same before the rhythm value with its comparisons.
fn look_at_rhythm(chart: &[u8], settings: Option<&[u8]>, records: &[f64]) {
    let place = print_text::next_long() as usize;
    let records = &records[..print_text::next_length(records.len())];
    let answer = match settings {
        None => calls_readings::read_rhythm(chart, records, place),
        Some(s) => calls_readings::read_rhythm_as(chart, s, records, place),
    };
    show(|out| {
        lines::put_answer(out, answer, b"rhythm ", |out, at, x| {
            print_lines::put_rhythm(out, at, place, x)
        })
    });
}

// A call that leaves the chart alone, of the second player with settings of its own.
fn ask(
    question: Question,
    chart: &[u8],
    settings: Option<&[u8]>,
    pattern: &[f64; PATTERN],
    records: &mut [f64],
    values: &mut [f64],
) {
    match question {
        Question::Open => open(chart, settings, records, values),
        Question::Record => look_at_record(chart, settings, records),
        Question::Values => look_at_values(chart, settings, values),
        Question::Totals => totals(chart, settings, values),
        Question::Entry => show(|out| lines::next_entry(out, pattern, records, values)),
        Question::AimParts => look_at_aim_parts(chart, settings, records),
        Question::Rhythm => look_at_rhythm(chart, settings, records),
    }
}

// Reads the second player's settings before its call.
fn read_and_ask(
    question: Question,
    chart: &[u8],
    pattern: &[f64; PATTERN],
    records: &mut [f64],
    values: &mut [f64],
) {
    let mut settings = [0u8; 128];
    if let Some(s) = print_text::read_chart(&mut settings[..]) {
        ask(
            question,
            chart,
            Some(&settings[..s]),
            pattern,
            records,
            values,
        );
    }
}

// Reads settings, which the second player's calls bring with them.
fn set() {
    let mut settings = [0u8; 128];
    let _ = print_text::read_chart(&mut settings[..]);
    io::write_all(1, b"set\n");
}

// An edit for the first player alone, on tables of these lengths.
fn change_one(
    change: Change,
    chart: &mut [u8],
    place: usize,
    object: &[u8],
    records: &mut [f64],
    values: &mut [f64],
) -> Result<(), Refusal> {
    match change {
        Change::Replace => calls_editor::replace(chart, place, object, records, values),
        Change::Insert => calls_editor::insert(chart, place, object, records, values),
        Change::Remove => calls_editor::remove(chart, place, records, values),
    }
}

// Carries out one edit on the first player's tables of the lengths that follow.
fn edit(
    change: Change,
    chart: &mut [u8],
    place: usize,
    object: &[u8],
    records: &mut [f64],
    values: &mut [f64],
) {
    let r = print_text::next_length(records.len());
    let v = print_text::next_length(values.len());
    let before = lines::hash_all(chart, records, values);
    let verdict = change_one(
        change,
        chart,
        place,
        object,
        &mut records[..r],
        &mut values[..v],
    );
    let after = lines::hash_all(chart, records, values);
    show(|out| lines::put_verdict(out, verdict, b"accepted\n", before, after));
}

// An edit for both players, on tables of these lengths.
fn change_both(
    change: Change,
    chart: &mut [u8],
    settings: &[u8],
    place: usize,
    object: &[u8],
    records: &mut [f64],
    values: &mut [f64],
    records_2: &mut [f64],
    values_2: &mut [f64],
) -> Result<(), Refusal> {
    match change {
        Change::Replace => calls_editor::replace_both(
            chart, settings, place, object, records, values, records_2, values_2,
        ),
        Change::Insert => calls_editor::insert_both(
            chart, settings, place, object, records, values, records_2, values_2,
        ),
        Change::Remove => calls_editor::remove_both(
            chart, settings, place, records, values, records_2, values_2,
        ),
    }
}

// A hash of all that a refused edit for both must leave as it was.
fn hash_both(
    chart: &[u8],
    records: &[f64],
    values: &[f64],
    records_2: &[f64],
    values_2: &[f64],
) -> u64 {
    let first = lines::hash_all(chart, records, values);
    lines::hash_table(lines::hash_table(first, records_2), values_2)
}

// Carries out one edit on both players' tables of the lengths that follow.
fn edit_both(
    change: Change,
    chart: &mut [u8],
    settings: &[u8],
    place: usize,
    object: &[u8],
    records: &mut [f64],
    values: &mut [f64],
    records_2: &mut [f64],
    values_2: &mut [f64],
) {
    let r = print_text::next_length(records.len());
    let v = print_text::next_length(values.len());
    let r_2 = print_text::next_length(records_2.len());
    let v_2 = print_text::next_length(values_2.len());
    let before = hash_both(chart, records, values, records_2, values_2);
    let verdict = change_both(
        change,
        chart,
        settings,
        place,
        object,
        &mut records[..r],
        &mut values[..v],
        &mut records_2[..r_2],
        &mut values_2[..v_2],
    );
    let after = hash_both(chart, records, values, records_2, values_2);
    show(|out| lines::put_verdict(out, verdict, b"accepted\n", before, after));
}

// Reads place and object before an edit for the first player.
fn read_and_edit(change: Change, chart: &mut [u8], records: &mut [f64], values: &mut [f64]) {
    let mut object = [0u8; 128];
    let place = print_text::next_long() as usize;
    if let Some(n) = print_text::read_chart(&mut object[..]) {
        edit(change, chart, place, &object[..n], records, values);
    }
}

// Reads settings, place and object before an edit for both.
fn read_and_edit_both(
    change: Change,
    chart: &mut [u8],
    records: &mut [f64],
    values: &mut [f64],
    records_2: &mut [f64],
    values_2: &mut [f64],
) {
    let mut settings = [0u8; 128];
    let mut object = [0u8; 128];
    let s = print_text::read_chart(&mut settings[..]);
    let place = print_text::next_long() as usize;
    let n = print_text::read_chart(&mut object[..]);
    if let (Some(s), Some(n)) = (s, n) {
        edit_both(
            change,
            chart,
            &settings[..s],
            place,
            &object[..n],
            records,
            values,
            records_2,
            values_2,
        );
    }
}

// Another hand writes to the chart.
fn poke(chart: &mut [u8]) {
    let mut bytes = [0u8; 1024];
    let offset = print_text::next_word();
    if let Some(n) = print_text::read_chart(&mut bytes[..]) {
        print_text::put_all(chart, offset, &bytes[..n]);
        io::write_all(1, b"poked\n");
    }
}

// One call.
fn answer(
    call: Call,
    chart: &mut [u8],
    pattern: &[f64; PATTERN],
    records: &mut [f64],
    values: &mut [f64],
    records_2: &mut [f64],
    values_2: &mut [f64],
) {
    match call {
        Call::First(question) => ask(question, chart, None, pattern, records, values),
        Call::Second(question) => read_and_ask(question, chart, pattern, records_2, values_2),
        Call::Change(change) => read_and_edit(change, chart, records, values),
        Call::ChangeBoth(change) => {
            read_and_edit_both(change, chart, records, values, records_2, values_2)
        }
        Call::Poke => poke(chart),
        Call::Chart => show(|out| lines::put_chart(out, chart)),
        Call::Lent => show(|out| lines::put_lent(out, chart.len())),
        Call::Set => set(),
    }
}

// All calls of a script. Before each stand its kind and the length of the buffer that it is lent.
fn answers(
    memory: &mut [u8],
    pattern: &[f64; PATTERN],
    records: &mut [f64],
    values: &mut [f64],
    records_2: &mut [f64],
    values_2: &mut [f64],
) {
    for _ in 0..print_text::next_length(MOST) {
        let call = Call::from(print_text::next_word());
        let n = print_text::next_length(memory.len());
        answer(
            call,
            &mut memory[..n],
            pattern,
            records,
            values,
            records_2,
            values_2,
        );
    }
}

// The last lines of a script.
fn finish(
    memory: &[u8],
    pattern: &[f64; PATTERN],
    records: &[f64],
    values: &[f64],
    records_2: &[f64],
    values_2: &[f64],
) {
    let lent = print_text::next_length(memory.len());
    show(|out| lines::put_chart(out, &memory[..lent]));
    let n = print_text::next_length(lines::ENTRIES);
    let kept = lines::kept(pattern, records, values, n)
        && lines::kept(pattern, records_2, values_2, n);
    show(|out| lines::put_kept(out, kept));
}

// The next script, if there is one, with both players' tables filled with the pattern that comes first.
fn next_script() -> bool {
    let mut memory = [0u8; 65536];
    let mut bytes = [0u8; 640];
    let mut pattern = [0.0f64; PATTERN];
    let mut records = [0.0f64; 16384];
    let mut values = [0.0f64; 5120];
    let mut records_2 = [0.0f64; 16384];
    let mut values_2 = [0.0f64; 5120];
    let Some(n) = print_text::read_chart(&mut memory[..]) else {
        return false;
    };
    lines::fill_memory(&mut memory[..], n);
    print_text::read_numbers(PATTERN, &mut bytes[..], &mut pattern[..]);
    lines::fill(&mut records[..], &pattern);
    lines::fill(&mut values[..], &pattern);
    lines::fill(&mut records_2[..], &pattern);
    lines::fill(&mut values_2[..], &pattern);
    answers(
        &mut memory[..],
        &pattern,
        &mut records[..],
        &mut values[..],
        &mut records_2[..],
        &mut values_2[..],
    );
    finish(
        &memory[..],
        &pattern,
        &records[..],
        &values[..],
        &records_2[..],
        &values_2[..],
    );
    true
}

// Scripts to the end of the input.
pub fn replay() {
    for _ in 0..MOST {
        if !next_script() {
            break;
        }
    }
}
