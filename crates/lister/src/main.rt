// The lister: reads a chart from standard input and writes its values and totals, or why it is refused.
#![tactic(auto)]

ghost use Rattle.std.specs.Prelude.{◌≡◌, ◌≤◌, length, take};
ghost use Rattle.print_listing.specs.List.{list_text};

// One byte more than the longest chart that is listed.
fn input() -> [u8; 32769]
    ensures { 32769 ≡ length result }
{
    [0; 32769]
}

// Lists a chart into a buffer with room for every listing; the text's length.
fn list(out: &mut [u8], chart: &[u8]) -> usize
    requires { 65536 ≤ length out.old }
    ensures { (result ≤ length out.new) × (take result out.new ≡ list_text chart.now) }
{
    print_listing::put_chart(out, chart)
}

// Lists what standard input has, and writes it.
fn run(out: &mut [u8], chart: &mut [u8])
    requires { 65536 ≤ length out.old }
{
    let n = io::read_full(0, chart);
    let end = list(out, &chart[..n]);
    io::write_all(1, &out[..end]);
}

fn main() {
    let mut chart = input();
    let mut out = io::large_buffer();
    run(&mut out[..], &mut chart[..]);
}
