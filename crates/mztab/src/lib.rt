// The public cell calls: the library over lent bytes.
#![tactic(auto)]

pub mod cells;
pub mod records;
