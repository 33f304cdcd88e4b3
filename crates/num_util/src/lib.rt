// The helpers of the Rust's util that the evaluators use.
#![tactic(auto)]

pub mod difficulty;
pub mod float_ext;
