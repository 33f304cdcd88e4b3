// T(1) to T(40) worked out by their rule (document 01, "Positions, paths, numbers"); `num_elementary::roots` has them as a constant.
#![tactic(auto)]

ghost use Rattle.std.specs.Prelude.{◌≡◌, ◌*◌, ◌^◌, ◌≤◌};
ghost use Rattle.num_elementary.specs.Roots.{two_roots};
ghost use Rattle.num_two_table.specs.Rule.{Largest, Table};

// T(0) = 2^63.
const FIRST: u64 = 0x8000_0000_0000_0000;

// The largest r with r * r <= t * 2^62, a product of up to 126 bits, bit by bit from 2^62 down. That c * c is at most t * 2^62 says that
// (c - 1) * (c + 1), which is one less, is below it: the upper digits of that product tell.
fn next_root(t: u64) -> u64
    requires { t ≤ 2 ^ 63 }
    ensures { Largest (t * 2 ^ 62) result }
{
    let mut r: u64 = 0;
    for left in (0..63u32).rev() {
        let c = r + (1 << left);
        if num_elementary::mul_shift62(c - 1, c + 1) < t {
            r = c;
        }
    }
    r
}

// The table of Two: the forty entries obey the rule, and are those of the constant.
pub fn table() -> [u64; 40]
    ensures { Table 40 result × (result ≡ two_roots 40) }
{
    let mut roots = [0u64; 40];
    let mut t = FIRST;
    for root in &mut roots {
        t = next_root(t);
        *root = t;
    }
    roots
}
