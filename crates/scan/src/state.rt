// What is carried from line to line: the state that stands for the lines above.
ghost use Rattle.std.specs.Prelude.{◌≡◌, true, ◌<◌};
ghost use Rattle.text_bytes.specs.Bytes.{first_kept};
ghost use Rattle.book.specs.Book.{SECTIONS as limit};
ghost use Rattle.scan.specs.Machine.{header_slot};
ghost use Rattle.scan.specs.Carried.{initial, after_header, after_row};

use book::SECTIONS;
use book::slots::SLOTS;
use book_facts::Asking;

// A header has at most so many cells (rule 11), and so many kinds are carried.
pub const MOST_CELLS: usize = 256;

// The lent list of first lines has so many places: a slot for each key, and behind them one for the headers of each section.
pub const FIRSTS: usize = 43284;

// Of the lines above: the sections that had a header or a row (and 0, which is none), whether any line is a header or row, the highest section that had a header,
// and the nearest header's section and number of cells (0 and 1 where there is none); and of the whole file what decides whether something is asked. A state is
// copied for each line, so what few lines change stands in lent lists; and the order of its fields matters: with more padding, or some at the end, it is copied in
// halves that overlap, and the next copy waits for both.
#[derive(Clone, Copy)]
pub struct State {
    pub present: [bool; SECTIONS],
    pub asking: Asking,
    pub table: bool,
    pub highest: u32,
    pub section: u32,
    pub width: usize,
}

// No line is above.
pub fn start(asking: Asking) -> State
    ensures { result ≡ initial asking }
{
    let mut present = [false; SECTIONS];
    present[0] = true;
    State {
        present,
        highest: 0,
        section: 0,
        asking,
        width: 1,
        table: false,
    }
}

// The slot of a section's headers.
pub fn header_slot(section: u32) -> usize
    ensures { result ≡ header_slot section }
{
    SLOTS + section as usize
}

// The line of the first: the one that was found, and this one where none was.
// Kept: 0 is none in the lent list of first lines, by the definition `first_kept`.
pub fn first_kept(first: u32, line: u32) -> u32
    ensures { result ≡ first_kept first true line }
{
    if first == 0 { line } else { first }
}

// A header of the section with so many cells is above too.
pub fn after_header(state: State, section: u32, width: usize) -> State
    requires { section < limit }
    ensures { result ≡ after_header section width state }
{
    let mut next = state;
    next.present[section as usize] = true;
    next.highest = state.highest.max(section);
    next.section = section;
    next.width = width;
    next.table = true;
    next
}

// A row of the section is above too. Most rows stand below others of their section, and change nothing.
pub fn after_row(state: State, section: u32) -> State
    requires { section < limit }
    ensures { result ≡ after_row section state }
{
    let present = state.present;
    if present[section as usize] {
        return state;
    }
    let mut next = state;
    next.present[section as usize] = true;
    next.table = true;
    next
}
