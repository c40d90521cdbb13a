// What the judging calls share: what a file's judging begins with, and what is carried from part to part.
ghost use Rattle.std.specs.Prelude.{◌≡◌, true, ◌≤◌};
ghost use Rattle.book.specs.Text.{book_in, IsBook};
ghost use Rattle.judging.specs.Parts.{Parts};
ghost use Rattle.judging.specs.Calls.{Begun, Going};

use crate::parts::{Stand, beginning, judge_part};
use book_facts::{asking_of, survey};
use numbers::Refusal;
use scan::state::MOST_CELLS;
use text::LIMIT;
use value_references::{FAMILIES, INDICES};

// Where the judging stands, the kinds of the nearest header's columns, and the ids that the file declares, by families.
#[derive(Clone, Copy)]
pub struct Carried {
    pub stand: Stand,
    pub kinds: [u8; MOST_CELLS],
    pub flags: [[bool; INDICES]; FAMILIES],
}

// Before the first line; a file over the limit is refused.
pub fn begin(book: &[u8], file: &[u8]) -> Result<Carried, Refusal>
    requires { IsBook book.now }
    ensures { Begun (book_in book.now) file.now result }
{
    if LIMIT < file.len() {
        return Err(Refusal::TooLong);
    }
    let mut flags = [[false; INDICES]; FAMILIES];
    let facts = survey(&mut flags, book, file);
    let asking = asking_of(facts, &flags);
    Ok(Carried {
        stand: beginning(asking),
        kinds: [0u8; MOST_CELLS],
        flags,
    })
}

// The next part, of `room` breaks and what one line and the end put beyond them: its breaks are in the places.
pub fn next_part(
    places: &mut [u32],
    room: u32,
    book: &[u8],
    file: &[u8],
    s: Carried,
    slots: &mut [u32],
) -> Carried
    requires le_room { 1 ≤ room }
    requires book { IsBook book.now }
    requires going { Going (book_in book.now) file.now s slots.old }
    ensures parts { Parts (book_in book.now) file.now room s.stand result.stand places.old places.new }
    ensures going_2 { result.stand.more ≡ true → Going (book_in book.now) file.now result slots.new }
{
    let flags = s.flags;
    let mut kinds = s.kinds;
    let stand = judge_part(places, room, book, file, s.stand, &flags, &mut kinds, slots);
    Carried {
        stand,
        kinds,
        flags,
    }
}
