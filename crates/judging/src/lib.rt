// Judging a file line by line, in parts or in one.
#![tactic(auto)]

pub mod calls;
pub mod parts;
