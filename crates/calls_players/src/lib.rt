// Two players over one chart (document 02, order 8): what a call answers and leaves the second player, edits for both, and the
// theorem over every list of calls of either: specs/Statement says what is claimed, proofs/Theorems proves it. The crate has no
// function.
#![tactic(auto)]
