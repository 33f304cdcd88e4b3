// Lines and hashes of the programs that replay scripts of calls. Each function that puts a line puts it at the start of a lent buffer and returns how long
// it is; with an offset it appends there and returns the offset behind what it wrote.
ghost use Rattle.std.specs.Prelude.{◌≤◌};

use calls_readings::AimDetail;
use chart_opening::Refusal;
use num_floats::Binary;
use skills::Skills;

// Entries of each table.
pub const ENTRIES: usize = 1024;

// Numbers of an entry.
const RECORD_WIDTH: usize = 16;

const VALUE_WIDTH: usize = 5;

// What all scratch holds before a call.
pub const UNUSED: f64 = 7.5;

// Numbers of the pattern that fills the tables.
pub const PATTERN: usize = 80;

// Where a 64-bit FNV-1a hash begins.
pub const START: u64 = 0xCBF2_9CE4_8422_2325;

// The next step of a 64-bit FNV-1a hash.
pub fn hashed(h: u64, w: u64) -> u64 {
    (h ^ w).wrapping_mul(0x100_0000_01B3)
}

// The FNV-1a hash of the bytes.
fn hash(bytes: &[u8]) -> u64 {
    bytes.iter().fold(START, |h, b| hashed(h, u64::from(*b)))
}

// A hash goes on over the bits of a table.
pub fn hash_table(from: u64, table: &[f64]) -> u64 {
    table.iter().fold(from, |h, x| hashed(h, x.bits()))
}

// A hash of all that a refused call must leave as it was.
pub fn hash_all(chart: &[u8], records: &[f64], values: &[f64]) -> u64 {
    hash_table(hash_table(hash(chart), records), values)
}

// The line of an opening or an edit: a word, or the refusal, and where it changed anything a line that says so.
pub fn put_verdict(
    out: &mut [u8],
    verdict: Result<(), Refusal>,
    word: &[u8],
    before: u64,
    after: u64,
) -> usize {
    match verdict {
        Ok(()) => print_text::put_all(out, 0, word),
        Err(r) => {
            let end = print_lines::put_refusal(out, 0, r);
            if before == after {
                return end;
            }
            print_text::put_all(out, end, b"changed by aim refused call\n")
        }
    }
}

// The line of what was read: a word and what is put behind it, or the refusal.
pub fn put_answer<T, F: FnOnce(&mut [u8], usize, T) -> usize + Drop>(
    out: &mut [u8],
    answer: Result<T, Refusal>,
    word: &[u8],
    put: F,
) -> usize
    requires { F.IsAlwaysCallable put }
{
    match answer {
        Err(r) => print_lines::put_refusal(out, 0, r),
        Ok(x) => {
            let end = print_text::put_all(out, 0, word);
            put(out, end, x)
        }
    }
}

// Aim with its parts, behind the word of the line.
pub fn put_detail(out: &mut [u8], at: usize, place: usize, d: AimDetail) -> usize {
    let with = d.parts;
    let without = d.parts_no_sliders;
    print_lines::put_aim(out, at, place, d.value, with, d.value_no_sliders, without)
}

// Whether all numbers are x, bit for bit.
pub fn holds(scratch: &[f64], x: f64) -> bool {
    scratch.iter().all(|y| y.bits() == x.bits())
}

// The line of the totals, and one where the scratch is not left as it was lent, or all 0.
pub fn put_totals(
    out: &mut [u8],
    answer: Result<Skills, Refusal>,
    aim: &[f64],
    aim_no_sliders: &[f64],
    speed: &[f64],
    flashlight: &[f64],
) -> usize {
    let (end, x) = match answer {
        Err(r) => (print_lines::put_refusal(out, 0, r), UNUSED),
        Ok(t) => (print_lines::put_totals(out, 0, t), 0.0),
    };
    if holds(aim, x) && holds(aim_no_sliders, x) && holds(speed, x) && holds(flashlight, x) {
        return end;
    }
    print_text::put_all(out, end, b"scratch is not left as it should be\n")
}

// The line of a chart's length and hash.
pub fn put_chart(out: &mut [u8], chart: &[u8]) -> usize {
    let word = print_text::put_all(out, 0, b"chart ");
    let length = print_text::put_decimal(out, word, chart.len() as u64);
    let space = print_text::put(out, length, b' ');
    let end = print_text::put_hex64(out, space, hash(chart));
    print_text::put(out, end, b'\n')
}

// The line of how many bytes are lent.
pub fn put_lent(out: &mut [u8], n: usize) -> usize {
    let word = print_text::put_all(out, 0, b"lent ");
    let length = print_text::put_decimal(out, word, n as u64);
    print_text::put(out, length, b'\n')
}

// Fills a table with the pattern, over and over.
pub fn fill(table: &mut [f64], pattern: &[f64; PATTERN]) {
    for (i, x) in table.iter_mut().enumerate() {
        *x = pattern[i % PATTERN];
    }
}

// The bytes that follow a chart of n bytes.
pub fn fill_memory(memory: &mut [u8], n: usize) {
    for i in n..memory.len() {
        memory[i] = (i % 251) as u8;
    }
}

// Whether the table's numbers from low to high - 1 are the pattern's.
fn patterned(table: &[f64], pattern: &[f64; PATTERN], low: usize, high: usize) -> bool {
    for i in low..high.min(table.len()) {
        let x = pattern[i % PATTERN];
        if table[i].bits() != x.bits() {
            return false;
        }
    }
    true
}

// Whether both tables hold the pattern from one entry to before another.
fn unwritten(
    pattern: &[f64; PATTERN],
    records: &[f64],
    values: &[f64],
    low: usize,
    high: usize,
) -> bool
    requires { (low ≤ 2048) × (high ≤ 2048) }
{
    patterned(records, pattern, RECORD_WIDTH * low, RECORD_WIDTH * high)
        && patterned(values, pattern, VALUE_WIDTH * low, VALUE_WIDTH * high)
}

// The numbers of an entry of both tables, as far as they have it.
pub fn put_entry(out: &mut [u8], at: usize, place: usize, records: &[f64], values: &[f64]) -> usize
    requires { place ≤ 1024 }
{
    if records.len() < RECORD_WIDTH * place + RECORD_WIDTH {
        return at;
    }
    if values.len() < VALUE_WIDTH * place + VALUE_WIDTH {
        return at;
    }
    let line = print_lines::put_record(out, at, place, osu_records::record_at(records, place));
    let v = eval_values::row_at(values, place);
    let aim = print_lines::put_f64(out, line.saturating_sub(1), v.aim);
    let aim_no_sliders = print_lines::put_f64(out, aim, v.aim_no_sliders);
    let speed = print_lines::put_f64(out, aim_no_sliders, v.speed);
    let rhythm = print_lines::put_f64(out, speed, v.rhythm);
    let flashlight = print_lines::put_f64(out, rhythm, v.flashlight);
    print_text::put(out, flashlight, b'\n')
}

// The next place, and what its entry of both tables holds, or that it was never written.
pub fn next_entry(
    out: &mut [u8],
    pattern: &[f64; PATTERN],
    records: &[f64],
    values: &[f64],
) -> usize {
    let place = print_text::next_length(ENTRIES);
    let word = print_text::put_all(out, 0, b"entry ");
    if unwritten(pattern, records, values, place, place + 1) {
        let end = print_text::put_decimal(out, word, place as u64);
        return print_text::put_all(out, end, b" kept\n");
    }
    put_entry(out, word, place, records, values)
}

// Whether entry 0 and those from n on, at most 1,024, hold what they held.
pub fn kept(pattern: &[f64; PATTERN], records: &[f64], values: &[f64], n: usize) -> bool
    requires { n ≤ 1024 }
{
    unwritten(pattern, records, values, 0, 1) && unwritten(pattern, records, values, n, ENTRIES)
}

// The line of whether entries that nothing writes are kept.
pub fn put_kept(out: &mut [u8], kept: bool) -> usize {
    let word: &[u8] = if kept {
        b"entries kept\n"
    } else {
        b"entries lost\n"
    };
    print_text::put_all(out, 0, word)
}
