// Judging a file in parts, each of as many breaks as a lent list has room for, or in one.
ghost use Rattle.std.specs.Prelude.{◌≡◌, true, ◌≤◌, length};
ghost use Rattle.text.specs.Lines.{LIMIT, lines};
ghost use Rattle.book.specs.Text.{book_in, IsBook};
ghost use Rattle.book_ids.specs.Ids.{Declared};
ghost use Rattle.book_facts.specs.Asked.{AskingOf};
ghost use Rattle.scan.specs.Machine.{FIRSTS};
ghost use Rattle.scan.specs.Carried.{Scan};
ghost use Rattle.judging.specs.Parts.{beginning as first, Midway, Lined, Parts};

use book_facts::Asking;
use line_any::{Step, judge_line};
use line_end::judge_end;
use line_head_stamps::ROOM;
use scan::state::{MOST_CELLS, State, start};
use text::lines::line_at;
use value_references::{FAMILIES, INDICES};

// Where the judging of a file stands: whether there is more to judge, the place of the next line and how many lines are passed, the breaks of the parts
// before and of the last one, and the state that stands for the lines passed.
// Kept: `more` is a state of the walk, and no value stands beside it: all else is told of a walk that has ended too.
#[derive(Clone, Copy)]
pub struct Stand {
    pub more: bool,
    pub at: usize,
    pub lines: u32,
    pub before: u32,
    pub held: u32,
    pub state: State,
}

// Before the first line.
pub fn beginning(asking: Asking) -> Stand
    ensures { result ≡ first asking }
{
    Stand {
        more: true,
        at: 0,
        lines: 0,
        before: 0,
        held: 0,
        state: start(asking),
    }
}

// Where a run of lines ends: where so many breaks are put, and where this place of the file is passed.
#[derive(Clone, Copy)]
pub struct Bounds {
    pub room: u32,
    pub end: usize,
}

// Judges line after line from where the judging stands up to a place, until `room` breaks are put. The list is written from its first place on; the lists lent
// besides are what is carried. This is the one loop that judges lines.
pub fn judge_lines(
    places: &mut [u32],
    bounds: Bounds,
    book: &[u8],
    file: &[u8],
    stand: Stand,
    flags: &[[bool; INDICES]; FAMILIES],
    kinds: &mut [u8; MOST_CELLS],
    slots: &mut [u32],
) -> Stand
    requires le_room { 1 ≤ bounds.room }
    requires end_in_bounds { bounds.end ≤ length file.now }
    requires book { IsBook book.now }
    requires file_len_bound { length file.now ≤ LIMIT }
    requires scan { Scan (book_in book.now) file.now stand.at stand.lines stand.state kinds.old slots.old }
    requires asking_of { AskingOf (book_in book.now) (lines file.now) stand.state.asking }
    requires declared { Declared (book_in book.now) flags.now file.now }
    requires kinds_len { length kinds.old ≡ 256 }
    requires slots_len { length slots.old ≡ FIRSTS }
    ensures lined { Lined (book_in book.now) file.now bounds.room bounds.end stand result places.old places.new }
    ensures scan_2 { Scan (book_in book.now) file.now result.at result.lines result.state kinds.new slots.new }
    ensures asking_of_2 { AskingOf (book_in book.now) (lines file.now) result.state.asking }
    ensures kinds_len_2 { (length kinds.new ≡ 256) × (length slots.new ≡ FIRSTS) }
{
    let mut stamps = [0u32; ROOM];
    let room = bounds.room;
    let last = bounds.end;
    let before = stand.before;
    let mut state = stand.state;
    let mut at = stand.at;
    let mut n = stand.lines;
    let mut k: u32 = 0;
    // Kept: walks by the ends of lines, and counts nothing: how far a turn goes is known when its line is read.
    while at < last {
        if room <= k {
            return Stand {
                more: true,
                at,
                lines: n,
                before,
                held: k,
                state,
            };
        }
        let line = line_at(file, at);
        let end = line.end;
        n += 1;
        let here = Step {
            line: n,
            count: k,
            state,
        };
        let step = judge_line(
            places,
            here,
            book,
            &file[at..end],
            flags,
            kinds,
            slots,
            &mut stamps,
        );
        k = step.count;
        state = step.state;
        at = line.next;
    }
    Stand {
        more: false,
        at,
        lines: n,
        before,
        held: k,
        state,
    }
}

// The next part: the lines until `room` breaks are put, and where there are no more what is required at the end.
pub fn judge_part(
    places: &mut [u32],
    room: u32,
    book: &[u8],
    file: &[u8],
    stand: Stand,
    flags: &[[bool; INDICES]; FAMILIES],
    kinds: &mut [u8; MOST_CELLS],
    slots: &mut [u32],
) -> Stand
    requires le_room { 1 ≤ room }
    requires book { IsBook book.now }
    requires file_len_bound { length file.now ≤ LIMIT }
    requires midway { Midway (book_in book.now) file.now stand kinds.old slots.old }
    requires declared { Declared (book_in book.now) flags.now file.now }
    requires kinds_len { length kinds.old ≡ 256 }
    requires slots_len { length slots.old ≡ FIRSTS }
    ensures parts { Parts (book_in book.now) file.now room stand result places.old places.new }
    ensures midway_2 { result.more ≡ true → Midway (book_in book.now) file.now result kinds.new slots.new }
    ensures kinds_len_2 { (length kinds.new ≡ 256) × (length slots.new ≡ FIRSTS) }
{
    let before = stand.before + stand.held;
    let bounds = Bounds {
        room,
        end: file.len(),
    };
    let judged = judge_lines(places, bounds, book, file, stand, flags, kinds, slots);
    let at = judged.at;
    let n = judged.lines;
    let k = judged.held;
    let state = judged.state;
    if judged.more {
        return Stand {
            more: true,
            at,
            lines: n,
            before,
            held: k,
            state,
        };
    }
    let held = judge_end(places, k, book, n + 1, slots, flags, state);
    Stand {
        more: false,
        at,
        lines: n,
        before,
        held,
        state,
    }
}
