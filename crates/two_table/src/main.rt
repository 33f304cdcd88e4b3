// Prints the table of Two: forty lines, each j in decimal, a space and T(j) as sixteen hex digits. The entries are worked out, not read from the constant.
#![tactic(auto)]

ghost use Rattle.print_text.specs.Buffer.{Puts};
ghost use Rattle.two_table.specs.Lines.{root_text, table_text};

// j and T(j) = t.
fn put_root(out: &mut [u8], at: usize, j: u64, t: u64) -> usize
    ensures { Puts (root_text j t) out.old at out.new result }
{
    let number = print_text::put_decimal(out, at, j);
    let space = print_text::put(out, number, b' ');
    let digits = print_text::put_hex64(out, space, t);
    print_text::put(out, digits, b'\n')
}

// The lines of T(1) to T(40).
fn put_table(out: &mut [u8]) -> usize
    ensures { Puts (table_text 40) out.old 0 out.new result }
{
    let mut end = 0;
    for (i, root) in num_two_table::table().iter().enumerate() {
        end = put_root(out, end, i as u64 + 1, *root);
    }
    end
}

fn main() {
    let mut out = [0u8; 1024];
    let end = put_table(&mut out[..]);
    print_text::show(&out[..], end);
}
