// Tables are flat slices of rows: specs/Parts defines a row, the making anew of rows and the moving of a part, proofs/Rows and proofs/Moves have their laws.
#![tactic(auto)]

ghost use Rattle.std.specs.Prelude.{◌≡◌, ◌+◌, ◌≤◌, length};
ghost use Rattle.num_tables.specs.Parts.{moved};

// Copies the n elements from place from on to place to, as they stood before; the two parts may overlap.
#[tactic(auto, using(crate::proofs::Moves::copied_moved))]
pub fn move_part<T: Copy>(s: &mut [T], from: usize, to: usize, n: usize)
    requires { (from + n ≤ length s.old) × (to + n ≤ length s.old) }
    ensures { s.new ≡ moved from to n s.old }
{
    s.copy_within(from..from + n, to);
}
