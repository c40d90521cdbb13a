// No code: the laws that join the text of the book to its tables, for the crate that lays it out.
#![tactic(auto)]
