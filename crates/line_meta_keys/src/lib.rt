// A metadata key, as the book finds it: what it and its value break, and its slot among the keys that came before.
#![tactic(auto)]

ghost use Rattle.std.specs.Prelude.{◌≡◌, cond, ◌-◌, ◌≤◌, ◌<◌, length};
ghost use Rattle.book_ids.specs.Ids.{Flags};
ghost use Rattle.book_names.specs.Names.{among, slot_of};
ghost use Rattle.book.specs.Keys.{is_colunit};
ghost use Rattle.book.specs.Book.{SLOTS, key_entries};
ghost use Rattle.book.specs.Text.{book_in, IsBook};
ghost use Rattle.scan.specs.Machine.{FIRSTS, ids_of};
ghost use Rattle.line_meta_keys.specs.Keys.{Judged, InSlots, slotted};

use book::is_colunit;
use book::slots::start_of;
use book_names::Known;
use line_meta_values::judge_value;
use scan::broken::{flaw_rule, rule_if};
use scan::state::first_kept;
use value_references::index::Flaw;
use value_references::{FAMILIES, INDICES};

// A key that the book has none like; one that came before where it may not.
const UNKNOWN: u32 = 5;

const AGAIN: u32 = 6;

// The rule that a key breaks, the line where the key stands first if it comes again, and the rule that its value breaks; 0 for none.
// Kept: `Judged` says what the fields are by definitions that have 0 for none.
#[derive(Clone, Copy)]
pub struct Judgement {
    pub key: u32,
    pub first: u32,
    pub value: u32,
}

// Which of its pattern's names has these indices, 0 for none.
fn place_among(i: usize, j: usize) -> usize
    requires { among i j < SLOTS }
    ensures { result ≡ among i j }
{
    let first = i.saturating_sub(1);
    if j == 0 {
        return first;
    }
    first * INDICES + (j - 1)
}

// The slot of a known key.
fn slot_of(book: &[u8], entry: usize, i: usize, j: usize) -> usize
    requires book { IsBook book.now }
    requires in_bounds { entry ≤ length (key_entries (book_in book.now)) }
    requires j_bound { slot_of (key_entries (book_in book.now)) entry i j < SLOTS }
    ensures { result ≡ slot_of (key_entries (book_in book.now)) entry i j }
{
    let start = start_of(book, entry);
    start + place_among(i, j)
}

// The line where a key stands first, of one that may not come again: a `colunit` one may.
fn first_of(key: &[u8], line: u32) -> u32
    ensures { result ≡ cond (is_colunit key.now) 0 line }
{
    if is_colunit(key) { 0 } else { line }
}

// The judgement of a key that the book answers so, and of its value. An unknown key stops all else; a `colunit` one may come again. The slots have the lines of
// the keys that came before.
pub fn judge_key(
    book: &[u8],
    found: Result<Known, Flaw>,
    key: &[u8],
    value: &[u8],
    flags: &[[bool; INDICES]; FAMILIES],
    slots: &[u32],
) -> Judgement
    requires book { IsBook book.now }
    requires in_slots { InSlots (book_in book.now) found }
    requires flags { Flags flags.now }
    requires slots_len { length slots.now ≡ FIRSTS }
    ensures { Judged (book_in book.now) slots.now (ids_of flags.now) found key.now value.now result }
{
    match found {
        Err(flaw) => Judgement {
            key: flaw_rule(flaw, UNKNOWN),
            first: 0,
            value: 0,
        },
        Ok(known) => {
            let slot = slot_of(book, known.entry, known.i, known.j);
            let first = first_of(key, slots[slot]);
            let judged = judge_value(flags, known.kind, known.family, value);
            Judgement {
                key: rule_if(first != 0, AGAIN),
                first,
                value: judged,
            }
        }
    }
}

// Notes the line in the slot of a known key that has none yet.
pub fn mark(slots: &mut [u32], book: &[u8], found: Result<Known, Flaw>, line: u32)
    requires book { IsBook book.now }
    requires in_slots { InSlots (book_in book.now) found }
    requires slots_len { length slots.old ≡ FIRSTS }
    ensures { slots.new ≡ slotted (book_in book.now) slots.old found line }
{
    if let Ok(known) = found {
        let slot = slot_of(book, known.entry, known.i, known.j);
        slots[slot] = first_kept(slots[slot], line);
    }
}
