// No code: the laws that walks by hand have in common, for the crates that have such walks.
#![tactic(auto)]
