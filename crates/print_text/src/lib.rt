// Text in a lent buffer: each function puts its text at an offset and returns the offset behind it. An offset beyond the buffer's end says that
// the buffer was too small; it stays beyond, so that a caller may look at the last one only.
#![tactic(auto)]

mod input;

ghost use Rattle.std.specs.Prelude.{◌≡◌, [], ◌∷◌, ◌<◌, ◌≤◌};
ghost use Rattle.print_text.specs.Buffer.{Puts};
ghost use Rattle.print_text.specs.Text as Text;

pub use input::{each_chart, next_length, next_long, next_word, read_chart, read_numbers};
use num_floats::Binary;

// One byte.
pub fn put(out: &mut [u8], at: usize, b: u8) -> usize
    ensures { Puts (b ∷ []) out.old at out.new result }
{
    if at < out.len() {
        out[at] = b;
        return at + 1;
    }
    if at == out.len() {
        return at + 1;
    }
    at
}

// All bytes of s.
pub fn put_all(out: &mut [u8], at: usize, s: &[u8]) -> usize
    ensures { Puts s.now out.old at out.new result }
{
    let mut end = at;
    for b in s {
        end = put(out, end, *b);
    }
    end
}

// An upper-case hex digit.
fn digit(d: u64) -> u8
    requires { d < 16 }
    ensures { result ≡ Text.digit d }
{
    if d < 10 {
        b'0' + d as u8
    } else {
        b'A' + (d - 10) as u8
    }
}

// The lowest n hex digits of v, highest first, n at most 16.
fn put_digits(out: &mut [u8], at: usize, v: u64, n: u32) -> usize
    requires { n ≤ 16 }
    ensures { Puts (Text.hex_text n v) out.old at out.new result }
{
    let mut end = at;
    for left in (0..n).rev() {
        end = put(out, end, digit((v >> (left * 4)) % 16));
    }
    end
}

// 16 upper-case hex digits.
pub fn put_hex64(out: &mut [u8], at: usize, v: u64) -> usize
    ensures { Puts (Text.hex_text 16 v) out.old at out.new result }
{
    put_digits(out, at, v, 16)
}

// 8 upper-case hex digits.
pub fn put_hex32(out: &mut [u8], at: usize, v: u32) -> usize
    ensures { Puts (Text.hex_text 8 v) out.old at out.new result }
{
    put_digits(out, at, v as u64, 8)
}

// The bits of an f64, NaN as 7FF8000000000000.
pub fn put_f64(out: &mut [u8], at: usize, x: f64) -> usize
    ensures { Puts (Text.f64_text x) out.old at out.new result }
{
    put_hex64(out, at, x.bits())
}

// The bits of an f32, NaN as 7FC00000.
pub fn put_f32(out: &mut [u8], at: usize, x: f32) -> usize
    ensures { Puts (Text.f32_text x) out.old at out.new result }
{
    put_hex32(out, at, x.bits() as u32)
}

// v in decimal.
pub fn put_decimal(out: &mut [u8], at: usize, v: u64) -> usize
    ensures { Puts (Text.decimal_text v) out.old at out.new result }
{
    let mut digits = [0u8; 20];
    let n = io::decimal(v, &mut digits);
    put_all(out, at, &digits[..n])
}

// Writes the first n bytes of the buffer, or that it was too small for them.
pub fn show(out: &[u8], n: usize) {
    if n <= out.len() {
        io::write_all(1, &out[0..n]);
    } else {
        io::write_all(1, b"the buffer was too small\n");
    }
}

// Writes them once half of the buffer is full; the offset at which the next line begins.
pub fn show_if_full(out: &[u8], n: usize) -> usize {
    if n <= out.len() / 2 {
        return n;
    }
    show(out, n);
    0
}
