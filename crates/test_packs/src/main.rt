// Ranks lists of offsets into packs. Standard input has for each pack its length and bytes, the number of requests, and for each request its kind:
//   0 rank, 1 join: how many offsets the first list has, what comes with the call (48 bytes, as the rater reads them), the number of offsets, the offsets
//     (u64), the lengths of the record and the value table, four lengths of scratch
//   2 what an entry of both tables holds: its place
// Whole numbers without a size are u32, all is little-endian. Every answer is a line. The tables stay from request to request of a pack.
#![tactic(auto)]

ghost use Rattle.std.specs.Prelude.{◌+◌, ◌*◌, ◌≤◌, length};

use chart_opening::Refusal;
use skills_rating::Mods;
use skills_stars::Asked;
use test_replays::lines;

// Requests of a pack at most.
const MOST: usize = 65536;

// Entries of each table.
const ENTRIES: usize = 256;

// What tables and scratch hold before the first call.
const UNUSED: f64 = 7.5;

// The FNV-1a hash of a list.
fn hash_list(list: &[usize]) -> u64 {
    list.iter()
        .fold(lines::START, |h, x| { lines::hashed(h, *x as u64) })
}

// Reads a number of offsets and the offsets into the list.
fn read_offsets(list: &mut [usize]) -> usize
    ensures { result ≤ length list.old }
{
    let n = print_text::next_length(list.len());
    for offset in list[..n].iter_mut() {
        *offset = print_text::next_long() as usize;
    }
    n
}

// Reads what comes with a call.
fn read_asked() -> Asked {
    let mut s = [0u8; 48];
    io::read_full(0, &mut s[..]);
    let given = num_floats::u32_at(&s[..], 4);
    let mods = Mods::from_word(
        num_floats::u32_at(&s[..], 0),
        given % 2 == 1,
        num_floats::f64_at(&s[..], 32),
        given / 2 % 2 == 1,
        num_floats::f64_at(&s[..], 40),
    );
    Asked {
        mods,
        approach_rate: num_floats::f64_at(&s[..], 8),
        overall_difficulty: num_floats::f64_at(&s[..], 16),
        base_multiplier: num_floats::f64_at(&s[..], 24),
    }
}

// The offset of a list's end, with a space before each offset.
fn put_offsets(out: &mut [u8], at: usize, list: &[usize]) -> usize {
    let mut end = at;
    for offset in list {
        end = print_text::put(out, end, b' ');
        end = print_text::put_decimal(out, end, *offset as u64);
    }
    end
}

// The line of a ranking: the listing, or the refusal; and a line where it changed what it must not.
fn put_verdict(
    out: &mut [u8],
    v: Result<(), Refusal>,
    list: &[usize],
    same: bool,
    zero: bool,
) -> usize {
    match v {
        Ok(()) => {
            let word = print_text::put_all(out, 0, b"listing");
            let offsets = put_offsets(out, word, list);
            let end = print_text::put(out, offsets, b'\n');
            if zero {
                return end;
            }
            print_text::put_all(out, end, b"scratch not cleared\n")
        }
        Err(r) => {
            let end = print_lines::put_refusal(out, 0, r);
            if same {
                return end;
            }
            print_text::put_all(out, end, b"changed by a refused call\n")
        }
    }
}

// Ranks a list, or joins two, of which the first has so many offsets.
fn carry_out(
    pack: &[u8],
    list: &mut [usize],
    first: Option<usize>,
    asked: Asked,
    records: &mut [f64],
    values: &mut [f64],
    aim: &mut [f64],
    aim_no_sliders: &mut [f64],
    speed: &mut [f64],
    flashlight: &mut [f64],
) -> Result<(), Refusal> {
    match first {
        Some(first) => pack::join(
            pack,
            list,
            first,
            asked,
            records,
            values,
            aim,
            aim_no_sliders,
            speed,
            flashlight,
        ),
        None => pack::rank(
            pack,
            list,
            asked,
            records,
            values,
            aim,
            aim_no_sliders,
            speed,
            flashlight,
        ),
    }
}

// A hash of list and tables.
fn hash_all(list: &[usize], records: &[f64], values: &[f64]) -> u64 {
    let h = lines::hash_table(hash_list(list), records);
    lines::hash_table(h, values)
}

// Whether all scratch is x, bit for bit.
fn all_hold(
    aim: &[f64],
    aim_no_sliders: &[f64],
    speed: &[f64],
    flashlight: &[f64],
    x: f64,
) -> bool {
    lines::holds(aim, x)
        && lines::holds(aim_no_sliders, x)
        && lines::holds(speed, x)
        && lines::holds(flashlight, x)
}

// Ranks a list with tables and scratch as they are lent, and puts the line.
fn rank_with(
    out: &mut [u8],
    pack: &[u8],
    list: &mut [usize],
    first: Option<usize>,
    asked: Asked,
    records: &mut [f64],
    values: &mut [f64],
    aim: &mut [f64],
    aim_no_sliders: &mut [f64],
    speed: &mut [f64],
    flashlight: &mut [f64],
) -> usize {
    let before = hash_all(list, records, values);
    let v = carry_out(
        pack,
        list,
        first,
        asked,
        records,
        values,
        aim,
        aim_no_sliders,
        speed,
        flashlight,
    );
    let same = before == hash_all(list, records, values);
    let unused = all_hold(aim, aim_no_sliders, speed, flashlight, UNUSED);
    let zero = all_hold(aim, aim_no_sliders, speed, flashlight, 0.0);
    put_verdict(out, v, list, same & unused, zero)
}

// Reads a request to rank or to join, with the lengths of tables and scratch that are lent for it, and puts its line.
fn rank(
    out: &mut [u8],
    joins: bool,
    pack: &[u8],
    records: &mut [f64],
    values: &mut [f64],
) -> usize {
    let mut list = [0usize; 512];
    let mut aim = [UNUSED; 9000];
    let mut aim_no_sliders = [UNUSED; 9000];
    let mut speed = [UNUSED; 9000];
    let mut flashlight = [UNUSED; 9000];
    let first = print_text::next_word();
    let asked = read_asked();
    let n = read_offsets(&mut list[..]);
    let r = print_text::next_length(records.len());
    let v = print_text::next_length(values.len());
    let x = print_text::next_length(9000);
    let y = print_text::next_length(9000);
    let z = print_text::next_length(9000);
    let w = print_text::next_length(9000);
    rank_with(
        out,
        pack,
        &mut list[..n],
        joins.then_some(first),
        asked,
        &mut records[..r],
        &mut values[..v],
        &mut aim[..x],
        &mut aim_no_sliders[..y],
        &mut speed[..z],
        &mut flashlight[..w],
    )
}

// What an entry of both tables holds, or that it was never written.
fn put_entry(out: &mut [u8], place: usize, records: &[f64], values: &[f64]) -> usize
    requires { place ≤ 256 }
{
    let word = print_text::put_all(out, 0, b"entry ");
    let r = calls::RECORD_WIDTH * place;
    if records.len() < r + calls::RECORD_WIDTH {
        return word;
    }
    if values.len() < calls::VALUE_WIDTH * place + calls::VALUE_WIDTH {
        return word;
    }
    if lines::holds(&records[r..r + calls::RECORD_WIDTH], UNUSED) {
        let end = print_text::put_decimal(out, word, place as u64);
        return print_text::put_all(out, end, b" kept\n");
    }
    lines::put_entry(out, word, place, records, values)
}

// Answers one request.
fn answer(pack: &[u8], records: &mut [f64], values: &mut [f64]) {
    let mut out = [0u8; 8192];
    let end = match print_text::next_word() {
        1 => rank(&mut out[..], true, pack, records, values),
        2 => put_entry(
            &mut out[..],
            print_text::next_length(ENTRIES),
            records,
            values,
        ),
        _ => rank(&mut out[..], false, pack, records, values),
    };
    print_text::show(&out[..], end);
}

// Answers the requests of a pack.
fn answers(pack: &[u8]) {
    let mut records = [UNUSED; 4096];
    let mut values = [UNUSED; 1280];
    for _ in 0..print_text::next_length(MOST) {
        answer(pack, &mut records[..], &mut values[..]);
    }
}

// Packs to the end of the input.
fn main() {
    let mut buffer = io::large_buffer();
    print_text::each_chart(&mut buffer[..], |pack| answers(pack));
}
