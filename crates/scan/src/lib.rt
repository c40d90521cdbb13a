// What a scan carries from line to line, the lent places that it puts breaks into, and the numbers of the rules that it puts there.
#![tactic(auto)]

pub mod broken;
pub mod places;
pub mod state;
