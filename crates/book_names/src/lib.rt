// A table of rows, and what it says of a name.
#![tactic(auto)]

use value_references::index::Flaw;

// The bytes of a row.
pub const WIDTH: usize = 54;

// Where the name begins in a row: after the letters of its kind and family, and a space.
pub const NAME: usize = 3;

// The bytes of a place for an index, `[n]`.
pub const PLACE: usize = 3;

// The links of a table: those of the bytes; those of the rows come after them.
pub const HEADS: usize = 256;

// Whether a name fits a pattern: with the indices that it has there, 0 for none; but for its indices, with the flaw of the leftmost that is bad; or not at all.
#[derive(Clone, Copy)]
pub enum Match {
    Differs,
    Misses(Flaw),
    Fits(usize, usize),
}

// What a table says of a name that it has: its entry there, the letters of its kind and family, and the name's indices, 0 for none. Of any other it says the flaw
// for which it is unknown.
#[derive(Clone, Copy)]
pub struct Known {
    pub entry: usize,
    pub kind: u8,
    pub family: u8,
    pub i: usize,
    pub j: usize,
}
