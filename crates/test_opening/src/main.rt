// Reads a pack of charts from standard input, each after its length as a little-endian u32, and prints for each what opening answers:
// `opened`, or `refused` with the number of the condition and the place. The tables count as long enough.
#![tactic(auto)]

// The answer for one chart, on a line.
fn answer(out: &mut [u8], chart: &[u8]) {
    match chart_opening::check(chart, 16_384) {
        Ok(()) => {
            io::write_all(1, b"opened\n");
        }
        Err(r) => print_lines::show_refusal(out, r),
    }
}

// Charts to the end of the input.
fn main() {
    let mut out = io::buffer();
    let mut buffer = io::large_buffer();
    print_text::each_chart(&mut buffer[..], |chart| answer(&mut out[..], chart));
}
