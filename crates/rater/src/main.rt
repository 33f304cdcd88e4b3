// The rater: reads from standard input what comes with a call for ratings, then a chart, and writes the ratings and the stars, or why there are none.
// What comes with the call is 48 bytes, little-endian: the word of mods, a word whose bits 0 and 1 say whether attraction strength and start scale are given
// (u32), then approach rate, overall difficulty, base multiplier, attraction strength and start scale (f64).
#![tactic(auto)]

ghost use Rattle.std.specs.Prelude.{◌≤◌, length};

use chart_opening::Refusal;
use skills_rating::Mods;
use skills_stars::{Asked, Ratings};

// The bytes in front of the chart, and the longest chart that is rated.
const ASKED: usize = 48;

const LIMIT: usize = 32768;

// One byte more than both.
const INPUT: usize = 32817;

// The objects that a chart of so many bytes can have, and the numbers of each table for as many.
const OBJECTS: usize = 583;

const RECORDS: usize = calls::RECORD_WIDTH * OBJECTS;

const VALUES: usize = calls::VALUE_WIDTH * OBJECTS;

// The numbers that totals need for each skill.
const SCRATCH: usize = 8192;

// What comes with the call.
fn asked_of(s: &[u8]) -> Asked
    requires { 48 ≤ length s.now }
{
    let given = num_floats::u32_at(s, 4);
    let mods = Mods::from_word(
        num_floats::u32_at(s, 0),
        given % 2 == 1,
        num_floats::f64_at(s, 32),
        given / 2 % 2 == 1,
        num_floats::f64_at(s, 40),
    );
    Asked {
        mods,
        approach_rate: num_floats::f64_at(s, 8),
        overall_difficulty: num_floats::f64_at(s, 16),
        base_multiplier: num_floats::f64_at(s, 24),
    }
}

// The word ratings and the four numbers.
fn put_ratings(out: &mut [u8], r: Ratings) -> usize {
    let word = print_text::put_all(out, 0, b"ratings");
    let aim = print_lines::put_f64(out, word, r.aim);
    let speed = print_lines::put_f64(out, aim, r.speed);
    let flashlight = print_lines::put_f64(out, speed, r.flashlight);
    let stars = print_lines::put_f64(out, flashlight, r.stars);
    print_text::put(out, stars, b'\n')
}

// The ratings of a chart. More bytes than the limit are refused before any check.
fn rate(chart: &[u8], asked: Asked) -> Result<Ratings, Refusal> {
    if LIMIT < chart.len() {
        return Err(Refusal::Table);
    }
    let mut records = [0.0f64; RECORDS];
    let mut values = [0.0f64; VALUES];
    calls_editor::open(chart, &mut records[..], &mut values[..])?;
    let mut aim = [0.0f64; SCRATCH];
    let mut aim_no_sliders = [0.0f64; SCRATCH];
    let mut speed = [0.0f64; SCRATCH];
    let mut flashlight = [0.0f64; SCRATCH];
    calls_figures::ratings(
        chart,
        &values[..],
        asked,
        &mut aim[..],
        &mut aim_no_sliders[..],
        &mut speed[..],
        &mut flashlight[..],
    )
}

// The ratings of an input. What ends before a chart begins has none: its header is wrong.
fn rate_input(input: &[u8]) -> Result<Ratings, Refusal> {
    if input.len() < ASKED {
        return Err(Refusal::Header);
    }
    rate(&input[ASKED..], asked_of(input))
}

// Rates what standard input has, and writes it.
fn run(out: &mut [u8], input: &mut [u8]) {
    let n = io::read_full(0, input);
    let end = match rate_input(&input[..n]) {
        Ok(r) => put_ratings(out, r),
        Err(r) => print_lines::put_refusal(out, 0, r),
    };
    print_text::show(out, end);
}

fn main() {
    let mut input = [0u8; INPUT];
    let mut out = [0u8; 128];
    run(&mut out[..], &mut input[..]);
}
