// The worked examples of the rules, computed by the checker: specs/Examples has the table and its theorem. This crate has no code.
#![tactic(auto)]
