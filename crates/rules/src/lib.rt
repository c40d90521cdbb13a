// What a line is: its sort.
#![tactic(auto)]

pub mod sorts;
