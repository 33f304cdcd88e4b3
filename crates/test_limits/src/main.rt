// Charts at the limit of N, built here: 16,384 circles open, no object can be put in with them and any taken out; 16,385 are refused by condition 1.
#![tactic(auto)]

ghost use Rattle.std.specs.Prelude.{◌≡◌, ◌≤◌, length};

use chart_opening::Refusal;
use num_floats::Binary;

// The most objects of a chart.
const MOST: usize = 16_384;

// Room for one circle more than that.
fn chart() -> [u8; 917640]
    ensures { 917640 ≡ length result }
{
    [0; 917640]
}

// Writes the lowest bytes of v, little-endian, from `at` on, and returns the place behind them.
fn put(s: &mut [u8], at: usize, v: u64, bytes: usize) -> usize {
    let mut end = at;
    let mut rest = v;
    for _ in 0..bytes {
        end = print_text::put(s, end, (rest % 256) as u8);
        rest /= 256;
    }
    end
}

// The counts of a chart of n circles, its offsets and its length: there are no entries, so both tables begin at its end.
fn put_counts(s: &mut [u8], n: usize, size: usize) -> usize {
    let counts = put(s, 0, n as u64, 12);
    let offset = put(s, counts, chart_fields::HEADER_SIZE as u64, 4);
    let nested = put(s, offset, size as u64, 4);
    let points = put(s, nested, size as u64, 4);
    put(s, points, size as u64, 8)
}

// Clock rate, radius and hit window.
fn put_play(s: &mut [u8], at: usize) -> usize {
    let clock_rate = put(s, at, 1.0f64.bits(), 8);
    let radius = put(s, clock_rate, 32.0f64.bits(), 8);
    put(s, radius, 80.0f64.bits(), 8)
}

// Preempt and fade-in times, scaling factor, and no flag.
fn put_sight(s: &mut [u8], at: usize) -> usize {
    let preempt = put(s, at, 1_200.0f64.bits(), 8);
    let fade_in = put(s, preempt, 800.0f64.bits(), 8);
    put(s, fade_in, 1.5625f32.bits(), 8)
}

// Circles, a millisecond apart.
fn put_circles(s: &mut [u8], at: usize, n: usize) {
    let mut end = at;
    let mut time = 0.0;
    for _ in 0..n {
        end = put(s, end, time.bits(), 8);
        end = put(s, end, time.bits(), 8);
        end = put(s, end, 0, chart_fields::OBJECT_SIZE - 16);
        time += 1.0;
    }
}

// What a call answers, on a line.
fn answer(out: &mut [u8], verdict: Result<(), Refusal>, word: &[u8]) {
    match verdict {
        Ok(()) => {
            io::write_all(1, word);
        }
        Err(r) => {
            let refused = print_text::put_all(out, 0, b"refused ");
            let number = print_text::put_decimal(out, refused, r.number() as u64);
            let end = print_text::put(out, number, b'\n');
            print_text::show(out, end);
        }
    }
}

// What opening answers for a chart in its buffer.
fn open(out: &mut [u8], s: &[u8]) {
    answer(out, chart_opening::check(s, MOST), b"opened\n");
}

// Puts a circle at 0 ms in; the tables count as long enough.
fn insert(s: &mut [u8], out: &mut [u8], place: usize) {
    let circle = [0u8; 56];
    answer(
        out,
        chart_inserting::insert(s, place, &circle[..], MOST + 1),
        b"inserted\n",
    );
}

// Takes the object at a place out, and shows the answer.
fn remove(s: &mut [u8], out: &mut [u8], place: usize) {
    answer(out, chart_inserting::remove(s, place, MOST), b"removed\n");
}

// Builds a chart of n circles and opens it.
fn run(s: &mut [u8], out: &mut [u8], n: usize)
    requires { n ≤ 16385 }
{
    let size = chart_fields::HEADER_SIZE + chart_fields::OBJECT_SIZE * n;
    let counts = put_counts(s, n, size);
    let play = put_play(s, counts);
    let sight = put_sight(s, play);
    put_circles(s, sight, n);
    if size <= s.len() {
        open(out, &s[..size]);
    }
}

// Between the two charts as many circles go into the first again as went out: 9 at the last place that there is, 8 behind it.
fn main() {
    let mut s = chart();
    let mut out = io::buffer();
    run(&mut s[..], &mut out[..], MOST);
    insert(&mut s[..], &mut out[..], MOST);
    insert(&mut s[..], &mut out[..], MOST + 1);
    remove(&mut s[..], &mut out[..], MOST - 1);
    remove(&mut s[..], &mut out[..], 0);
    insert(&mut s[..], &mut out[..], 0);
    insert(&mut s[..], &mut out[..], 0);
    insert(&mut s[..], &mut out[..], 0);
    open(&mut out[..], &s[..]);
    run(&mut s[..], &mut out[..], MOST + 1);
}
