// Required metadata, read off the slots of the keys, which have the first lines of those that the file has: the book's demands, one after the other.
#![tactic(auto)]

ghost use Rattle.std.specs.Prelude.{◌≡◌, [], ◌+◌, ◌≤◌, ◌<◌, length, get_or};
ghost use Rattle.book.specs.Book.{no_demand, wants_of, up_from};
ghost use Rattle.book.specs.Text.{book_in, IsBook};
ghost use Rattle.book_ids.specs.Ids.{Flags, is_marked};
ghost use Rattle.scan.specs.Places.{CEILING, END_MOST, lent, Puts};
ghost use Rattle.scan.specs.Machine.{marks, want_breaks, end_breaks};
ghost use Rattle.line_end.specs.Ends.{seen, Whole, seen_by, id_breaks};

use book::SECTIONS;
use book::demands::{Demand, ONCE, count_demands, nth_demand};
use book::slots::start_of;
use book_facts::{Asking, is_asked};
use scan::places::put_if;
use scan::state::State;
use value_references::{FAMILIES, INDICES};

// The line after the last, and what was found of the file: what decides whether something is asked of it, and the sections that are present, with 0 among
// them.
#[derive(Clone, Copy)]
struct End {
    line: u32,
    asking: Asking,
    present: [bool; SECTIONS],
}

// Whether any key came that has one of the slots, from one up to another.
fn any_came(slots: &[u32], from: usize, to: usize) -> bool
    requires { (from ≤ to) × (to ≤ length slots.now) }
    ensures { result ≡ is_marked (marks slots.now) from to }
{
    slots[from..to].iter().any(|s| *s != 0)
}

// A demand that is asked for each declared id of a family: its key with the id's index is absent. The slots of the key begin at `from`.
fn judge_ids(
    places: &mut [u32],
    count: u32,
    line_no: u32,
    d: Demand,
    from: usize,
    asked: bool,
    slots: &[u32],
    flags: &[[bool; INDICES]; FAMILIES],
) -> u32
    requires each_bound { d.each < 4 }
    requires from_in_bounds { from + 64 ≤ length slots.now }
    requires flags { Flags flags.now }
    requires cell_bound { d.cell < 65536 }
    requires count_bound { count + 64 ≤ CEILING }
    ensures { Puts (id_breaks d asked (marks slots.now) (get_or flags.now d.each []) from line_no (up_from 64 1)) 64 (lent places.old count) (lent places.new result) }
{
    let ids = flags[d.each];
    let mut c = count;
    for i in 0..INDICES {
        let cell = d.cell + 1 + i as u32;
        let lacking = asked & ids[i] & (slots[from + i] == 0);
        c = put_if(places, c, lacking, d.rule, line_no, cell);
    }
    c
}

// Demand k: it is asked, and no line has such a key.
fn judge_demand(
    places: &mut [u32],
    count: u32,
    book: &[u8],
    k: usize,
    end: End,
    slots: &[u32],
    flags: &[[bool; INDICES]; FAMILIES],
) -> u32
    requires book { IsBook book.now }
    requires k_in_bounds { k < length (book_in book.now).demands }
    requires whole { Whole slots.now flags.now end.asking }
    requires no_demand_bound { count + length (wants_of (get_or (book_in book.now).demands k no_demand)) ≤ CEILING }
    ensures { Puts (want_breaks (book_in book.now) (seen slots.now flags.now end) end.line (wants_of (get_or (book_in book.now).demands k no_demand))) (length (wants_of (get_or (book_in book.now).demands k no_demand))) (lent places.old count) (lent places.new result) }
{
    let d = nth_demand(book, k);
    let from = start_of(book, d.entry);
    let asked = is_asked(d.asked, end.asking) & end.present[d.section];
    if d.each != ONCE {
        return judge_ids(places, count, end.line, d, from, asked, slots, flags);
    }
    let to = start_of(book, d.entry + 1);
    let lacking = asked & !any_came(slots, from, to);
    put_if(places, count, lacking, d.rule, end.line, d.cell)
}

// What of the demanded metadata is absent, demand by demand.
fn judge_demands(
    places: &mut [u32],
    count: u32,
    book: &[u8],
    end: End,
    slots: &[u32],
    flags: &[[bool; INDICES]; FAMILIES],
) -> u32
    requires book { IsBook book.now }
    requires whole { Whole slots.now flags.now end.asking }
    requires count_bound { count + END_MOST ≤ CEILING }
    ensures { Puts (end_breaks (book_in book.now) (seen slots.now flags.now end) end.line) END_MOST (lent places.old count) (lent places.new result) }
{
    let n = count_demands(book);
    let mut c = count;
    for k in 0..n {
        c = judge_demand(places, c, book, k, end, slots, flags);
    }
    c
}

// What of the demanded metadata is absent, at the line after the last: by the first lines of the keys that came, the ids that are declared, and what the state has
// of the file: what decides whether something is asked, and the sections that are present.
pub fn judge_end(
    places: &mut [u32],
    count: u32,
    book: &[u8],
    line_no: u32,
    slots: &[u32],
    flags: &[[bool; INDICES]; FAMILIES],
    state: State,
) -> u32
    requires book { IsBook book.now }
    requires whole { Whole slots.now flags.now state.asking }
    requires count_bound { count + END_MOST ≤ CEILING }
    ensures { Puts (end_breaks (book_in book.now) (seen_by slots.now flags.now state) line_no) END_MOST (lent places.old count) (lent places.new result) }
{
    let present = state.present;
    let end = End {
        line: line_no,
        asking: state.asking,
        present,
    };
    judge_demands(places, count, book, end, slots, flags)
}
