// A record of a break, and the steps of the judging call over records from part to part: each judges as many lines as a part has room for.
#![tactic(auto)]

ghost use Rattle.std.specs.Prelude.{◌≡◌, true, length, replicate, IfOk};
ghost use Rattle.numbers.specs.Refusals.{number_in};
ghost use Rattle.scan.specs.Machine.{FIRSTS as all_firsts};
ghost use Rattle.book.specs.Text.{IsBook};
ghost use Rattle.judging.specs.Calls.{length_number};
ghost use Rattle.fault_steps.specs.Steps.{PLACES, Between, Moves};

use judging::calls::{Carried, next_part};
use numbers::Refusal;
use scan::state::FIRSTS;

// A break: its rule, its line and cell in the file, and where what it repeats stands first: a line for rules 6 and 9, a cell for 13, 0 for all others.
#[repr(C)]
#[derive(Clone, Copy)]
pub struct Fault {
    pub rule: u32,
    pub line: u32,
    pub cell: u32,
    pub first: u32,
}

// The places of a part: four for each of 4,096 breaks.
pub const PLACES: usize = 16384;

// The breaks that a part holds before its last line: with that line's and those at the end they are at most 4,096.
const FULL: u32 = 2524;

// Where the call stands between two steps: whether there is more to judge, the count of all breaks up to here, how long the lent list is, and where in it the
// records of the last part go, and how many of them. Then what is carried from part to part.
// Kept: `more` is a state of the walk, and no value stands beside it: all else is told of a walk that has ended too.
#[derive(Clone, Copy)]
pub struct Progress {
    pub more: bool,
    pub count: u32,
    pub cap: usize,
    pub from: usize,
    pub fit: usize,
    pub carried: Carried,
}

// Before the first line; a file over the limit is refused.
pub fn begin(book: &[u8], file: &[u8], cap: usize) -> Result<Progress, Refusal>
    requires { IsBook book.now }
    ensures number { number_in result ≡ length_number file.now }
    ensures between { IfOk result (λ s. Between file.now s (replicate all_firsts 0)) }
    ensures cap_value { IfOk result (λ s. (s.cap ≡ cap) × (s.count ≡ 0)) }
{
    let carried = judging::calls::begin(book, file)?;
    Ok(Progress {
        more: true,
        count: 0,
        cap,
        from: 0,
        fit: 0,
        carried,
    })
}

// The next part: its records are in the places.
pub fn next(
    book: &[u8],
    file: &[u8],
    s: Progress,
    slots: &mut [u32; FIRSTS],
    places: &mut [u32; PLACES],
) -> Progress
    requires book { IsBook book.now }
    requires between { Between file.now s slots.old }
    requires more_value { s.more ≡ true }
    requires places_len { length places.old ≡ PLACES }
    ensures between_2 { Between file.now result slots.new }
    ensures moves { Moves file.now s result places.new }
    ensures places_len_2 { length places.new ≡ PLACES }
{
    let carried = next_part(places, FULL, book, file, s.carried, slots);
    let stand = carried.stand;
    let count = stand.before + stand.held;
    let from = (stand.before as usize).min(s.cap);
    let fit = (stand.held as usize).min(s.cap - from);
    Progress {
        more: stand.more,
        count,
        cap: s.cap,
        from,
        fit,
        carried,
    }
}
