// The demands on the metadata, in the order of their cells.
ghost use Rattle.std.specs.Prelude.{◌≡◌, ◌<◌, length};
ghost use Rattle.book.specs.Text.{book_in, IsBook, Demanded};

use crate::directory::{CODES, STEP};

// The bytes of a demand: two for its cell, and one each for its key's entry, when it is asked, its section, its family and its rule.
const SIZE: usize = 7;

// A demand that is asked once, and not for each id of a family.
pub const ONCE: usize = 4;

// The entry of the key that is demanded, the rule that its absence breaks and the cell at which that is reported, the letter that says of which files it is
// asked, the section that these must have, 0 for none, and the number of the family for each of whose ids it is asked, or ONCE.
#[derive(Clone, Copy)]
pub struct Demand {
    pub entry: usize,
    pub rule: u32,
    pub cell: u32,
    pub asked: u8,
    pub section: usize,
    pub each: usize,
}

// How many demands there are.
pub fn count_demands(book: &[u8]) -> usize
    requires { IsBook book.now }
    ensures { result ≡ length (book_in book.now).demands }
{
    usize::from(book[CODES + STEP * usize::from(book[1])])
}

// Demand k, from 0.
pub fn nth_demand(book: &[u8], k: usize) -> Demand
    requires book { IsBook book.now }
    requires k_in_bounds { k < length (book_in book.now).demands }
    ensures { Demanded (book_in book.now) k result }
{
    let at = CODES + STEP * (usize::from(book[1]) + 1) + SIZE * k;
    let demand = &book[at..at + SIZE];
    Demand {
        entry: usize::from(demand[2]),
        rule: u32::from(demand[6]),
        cell: u32::from(u16::from_le_bytes([demand[0], demand[1]])),
        asked: demand[3],
        section: usize::from(demand[4]),
        each: usize::from(demand[5]),
    }
}
