// Works ratings out, and what they are made of. Standard input has for each question its kind, the number of objects,
// the word of mods and a word whose bits 0 and 1 say
// whether attraction strength and start scale are given (u32), then nine numbers (f64), little-endian. The answers are written as bits.
#![tactic(auto)]

ghost use Rattle.std.specs.Prelude.{◌<◌};

use skills::Skills;
use skills_rating::{Mods, OsuRatingCalculator};
use skills_stars::Asked;

// The bytes of a question, and questions that are answered at most.
const SIZE: usize = 88;

const MOST: usize = 1048576;

// Where the numbers of a question begin.
const NUMBERS: usize = 16;

// Number i of a question.
fn number(s: &[u8; 88], i: usize) -> f64
    requires { i < 9 }
{
    num_floats::f64_at(s, NUMBERS + 8 * i)
}

// The mods of a question, with the two numbers that may be absent.
fn mods_of(s: &[u8; 88], strength: f64, scale: f64) -> Mods {
    let given = num_floats::u32_at(s, 12);
    Mods::from_word(
        num_floats::u32_at(s, 8),
        given % 2 == 1,
        strength,
        given / 2 % 2 == 1,
        scale,
    )
}

// The calculator of a question, with its mods.
fn calculator(s: &[u8; 88], mods: Mods) -> OsuRatingCalculator {
    OsuRatingCalculator::new(
        mods,
        num_floats::u32_at(s, 4),
        number(s, 0),
        number(s, 1),
        number(s, 4),
        number(s, 5),
    )
}

// The answer of a function that gives one number.
fn one(s: &[u8; 88], kind: u32) -> f64 {
    let a = number(s, 0);
    let b = number(s, 1);
    let c = number(s, 2);
    let mods = mods_of(s, c, number(s, 3));
    let by = calculator(s, mods);
    // The numbers are the input's, and each is named here alone: an enum would give the list twice.
    match kind {
        1 => skills_rating::cbrt(a),
        2 => OsuRatingCalculator::calculate_difficulty_rating(a),
        3 => skills_stars::difficulty_to_performance(a),
        4 => skills_stars::flashlight_to_performance(a),
        5 => skills_stars::calculate_star_rating(a, b),
        6 => skills_stars::calculate_mechanical_difficulty_rating(a, b, c),
        7 => OsuRatingCalculator::calculate_aim_visibility_factor(a, b),
        8 => OsuRatingCalculator::calculate_speed_visibility_factor(a, b),
        9 => OsuRatingCalculator::calculate_visibility_bonus(mods, a, b, c),
        10 => by.compute_aim_rating(number(s, 6)),
        11 => by.compute_speed_rating(number(s, 6)),
        _ => by.compute_flashlight_rating(number(s, 6)),
    }
}

// Puts a number's bits and a byte behind them.
fn put_number(line: &mut [u8], at: usize, x: f64, behind: u8) -> usize {
    let end = print_text::put_f64(line, at, x);
    print_text::put(line, end, behind)
}

// Answers a question for the ratings and the stars.
fn all(s: &[u8; 88]) {
    let mods = mods_of(s, number(s, 3), number(s, 4));
    let asked = Asked {
        mods,
        approach_rate: number(s, 0),
        overall_difficulty: number(s, 1),
        base_multiplier: number(s, 2),
    };
    let totals = Skills {
        aim: number(s, 5),
        aim_no_sliders: number(s, 6),
        speed: number(s, 7),
        flashlight: number(s, 8),
    };
    let r = skills_stars::eval(totals, num_floats::u32_at(s, 4), asked);
    let mut line = [0u8; 128];
    let mut end = put_number(&mut line[..], 0, r.aim, b' ');
    end = put_number(&mut line[..], end, r.speed, b' ');
    end = put_number(&mut line[..], end, r.flashlight, b' ');
    end = put_number(&mut line[..], end, r.stars, b'\n');
    print_text::show(&line[..], end);
}

// Reads a question and answers it; false at the end of the input.
fn answer() -> bool {
    let mut s = [0u8; 88];
    if io::read_full(0, &mut s[..]) < SIZE {
        return false;
    }
    let kind = num_floats::u32_at(&s[..], 0);
    if kind == 0 {
        all(&s);
    } else {
        let mut line = [0u8; 32];
        let end = put_number(&mut line[..], 0, one(&s, kind), b'\n');
        print_text::show(&line[..], end);
    }
    true
}

fn main() {
    for _ in 0..MOST {
        if !answer() {
            break;
        }
    }
}
