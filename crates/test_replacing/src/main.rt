// Replays replacements on stored charts. Standard input has for each chart its length (u32), its bytes and the number of calls (u32), and
// for each call the place (u64), the entries of the shorter table (u32), the object's length (u32) and its bytes. For each call `accepted` or
// `refused` with number and place is printed, and after the last the Adler-32 checksum of the chart's bytes. All numbers are little-endian.
#![tactic(auto)]

use chart_opening::Refusal;

// Calls on a chart at most.
const MOST: usize = 65536;

// The line of an answer.
fn put_verdict(out: &mut [u8], v: Result<(), Refusal>) -> usize {
    match v {
        Ok(()) => print_text::put_all(out, 0, b"accepted\n"),
        Err(r) => print_lines::put_refusal(out, 0, r),
    }
}

// One call.
fn call(out: &mut [u8], chart: &mut [u8], object: &mut [u8]) {
    let place = print_text::next_long() as usize;
    let entries = print_text::next_word();
    let Some(n) = print_text::read_chart(object) else {
        return;
    };
    let verdict = chart_replacing::replace(chart, place, &object[..n], entries);
    let end = put_verdict(out, verdict);
    print_text::show(out, end);
}

// Adler-32 of s: the sum of its bytes from 1 on, and behind it the sum of those sums, both by 65,521.
fn checksum(s: &[u8]) -> u32 {
    let mut a: u32 = 1;
    let mut b: u32 = 0;
    for byte in s {
        a = (a % 65521 + u32::from(*byte)) % 65521;
        b = (b % 65521 + a) % 65521;
    }
    b % 65521 * 0x1_0000 + a % 65521
}

// Writes the line of a chart's checksum.
fn show_checksum(out: &mut [u8], chart: &[u8]) {
    let word = print_text::put_all(out, 0, b"chart ");
    let end = print_text::put_hex32(out, word, checksum(chart));
    let stop = print_text::put(out, end, b'\n');
    print_text::show(out, stop);
}

// All calls on a chart.
fn calls(out: &mut [u8], chart: &mut [u8], object: &mut [u8]) {
    for _ in 0..print_text::next_length(MOST) {
        call(out, chart, object);
    }
    show_checksum(out, chart);
}

// Charts to the end of the input.
fn main() {
    let mut out = io::buffer();
    let mut buffer = io::large_buffer();
    let mut object = io::buffer();
    print_text::each_chart(&mut buffer[..], |chart| {
        calls(&mut out[..], chart, &mut object[..])
    });
}
