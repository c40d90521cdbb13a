// The shares of a fee, and when a sum or a split is refused, over plain numbers and lists.
#![tactic(auto)]

pub mod refusals;
pub mod shares;
