// Runs every function on numbers over vectors. Standard input has 25 bytes for each: a letter that names the function and three
// little-endian words, the bits of its arguments. For each one line is written: the answer's bits in hex; an i32 goes as the f64 of its number.
#![tactic(auto)]

ghost use Rattle.std.specs.Prelude.{◌≡◌, length};

use num_floats::Binary;

// The bytes of a vector, and pieces of the input that are read at most.
const SIZE: usize = 25;

const MOST: usize = 64;

// The f64 answers of one argument.
fn of_one(f: u8, x: f64) -> f64 {
    match f {
        b'2' => num_elementary::two(x),
        b'e' => num_elementary::exp(x),
        b'g' => num_elementary::log10(x),
        b'o' => num_elementary::log(x),
        b'r' => num_roots::root(x),
        b't' => num_whole::trunc(x),
        b'f' => num_whole::floor(x),
        b'c' => num_whole::ceil(x),
        b'1' => num_whole::rem_one(x),
        b'R' => num_whole::rem_two(x),
        b'a' => num_floats::abs(x),
        b'd' => num_angle::to_radians(x),
        b'b' => num_util::difficulty::bpm_to_milliseconds(
            x,
            num_util::difficulty::DEFAULT_DELIMITER,
        ),
        b'B' => num_util::difficulty::milliseconds_to_bpm(
            x,
            num_util::difficulty::DEFAULT_DELIMITER,
        ),
        _ => x,
    }
}

// Those of two and three.
fn of_more(f: u8, x: f64, y: f64, z: f64) -> f64 {
    match f {
        b'p' => num_elementary::power(x, y),
        b'A' => num_angle::angle(x, y),
        b'M' => num_floats::max(x, y),
        b'm' => num_floats::min(x, y),
        b'C' => num_floats::clamp(x, y, z),
        b's' => num_util::difficulty::smoothstep(x, y, z),
        b'S' => num_util::difficulty::smootherstep(x, y, z),
        b'k' => num_util::difficulty::smoothstep_bell_curve(x, y, z),
        b'l' => num_util::difficulty::reverse_lerp(x, y, z),
        b'L' => num_util::difficulty::logistic(x, y, z, 1.0),
        _ => of_one(f, x),
    }
}

// The answer to one vector.
fn answer(out: &mut [u8], at: usize, f: u8, x: u64, y: u64, z: u64) -> usize {
    let a = f64::of_bits(x);
    match f {
        b'i' => print_text::put_f64(out, at, num_whole::to_i32(a) as f64),
        b'n' => print_text::put_f32(out, at, num_whole::f64_to_f32(a)),
        b'q' => print_text::put_f32(out, at, root32_of(x)),
        b'N' => print_text::put(
            out,
            at,
            told(num_util::float_ext::not_eq(a, f64::of_bits(y))),
        ),
        _ => print_text::put_f64(out, at, of_more(f, a, f64::of_bits(y), f64::of_bits(z))),
    }
}

// The root of the f32 with the bits of the lower half of x.
fn root32_of(x: u64) -> f32 {
    num_roots::root(f32::of_bits(x % 0x1_0000_0000))
}

// 1 or 0 as a character.
fn told(b: bool) -> u8 {
    if b { b'1' } else { b'0' }
}

// The lines of the vectors of s.
fn answers(s: &[u8], out: &mut [u8]) -> usize {
    let mut end = 0;
    for vector in s.chunks_exact(SIZE) {
        let x = num_floats::u64_at(vector, 1);
        let y = num_floats::u64_at(vector, 9);
        let z = num_floats::u64_at(vector, 17);
        let stop = answer(out, end, vector[0], x, y, z);
        end = print_text::put(out, stop, b'\n');
    }
    end
}

// All vectors of standard input, as many at a time as s holds.
fn run(s: &mut [u8], out: &mut [u8]) {
    for _ in 0..MOST {
        let got = io::read_full(0, s);
        let end = answers(&s[..got], out);
        print_text::show(out, end);
        if got < s.len() {
            break;
        }
    }
}

// Room for 2,048 vectors.
fn piece() -> [u8; 51200]
    ensures { 51200 ≡ length result }
{
    [0; 51200]
}

fn main() {
    let mut s = piece();
    let mut out = io::large_buffer();
    run(&mut s, &mut out);
}
