// Lists charts as the lister does. Standard input has for each chart its length (u32, little-endian) and its bytes.
#![tactic(auto)]

// The lines of one chart.
fn list(out: &mut [u8], chart: &[u8]) {
    let end = print_listing::put_chart(out, chart);
    print_text::show(out, end);
}

// Charts to the end of the input.
fn main() {
    let mut out = io::large_buffer();
    let mut buffer = io::large_buffer();
    print_text::each_chart(&mut buffer[..], |chart| list(&mut out[..], chart));
}
