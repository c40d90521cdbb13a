// The call for one line: it is judged under the whole file, and of the lines above only what is carried to it is worked out.
#![tactic(auto)]

ghost use Rattle.std.specs.Prelude.{◌≡◌, true, false, cond, ◌-◌, ◌≤◌, ◌<◌, length, replicate, MatchOption};
ghost use Rattle.numbers.specs.Refusals.{number_in, answer_or};
ghost use Rattle.text.specs.Lines.{LIMIT, lines};
ghost use Rattle.book.specs.Book.{is_section};
ghost use Rattle.book.specs.Text.{book_in, IsBook};
ghost use Rattle.book_ids.specs.Ids.{Flags};
ghost use Rattle.book_facts.specs.Asked.{AskingOf};
ghost use Rattle.scan.specs.Machine.{FIRSTS as firsts};
ghost use Rattle.rules.specs.Sorts.{is_header};
ghost use Rattle.judged.specs.Judged.{outcome};
ghost use Rattle.scan.specs.Places.{lent, put_all};
ghost use Rattle.rules.specs.Edited.{line_of};
ghost use Rattle.judging.specs.Parts.{beginning};
ghost use Rattle.judging.specs.Calls.{Going};
ghost use Rattle.judged_line.specs.Judged.{is_line, judged_line};
ghost use Rattle.judged_line.specs.Passing.{Passes, Reaches, Sought, Learnt};

use book_text::book;
use judging::calls::{Carried, begin};
use judging::parts::{Bounds, Stand, judge_lines};
use line_head::{Head, judge_head};
use line_head_stamps::ROOM;
use line_meta::judge_meta;
use numbers::Refusal;
use rules::sorts::{Sort, sort_of};
use scan::places::Tag;
use scan::state::{FIRSTS, MOST_CELLS, State, after_header, after_row, first_kept, header_slot};
use text::cells::count_cells;
use text::lines::line_at;
use value_references::{FAMILIES, INDICES};

// What a line above leaves: the state after it, and whether it is a header.
#[derive(Clone, Copy)]
pub struct Passed {
    pub state: State,
    pub header: bool,
}

// A line above, the n-th. None of these is judged for its own sake: a row and a header change what is carried by their section, a metadata line by its key, whose
// breaks go to a list of one place, which holds none. What the names of a header are is not asked: it counts for the nearest alone.
fn pass_line(
    n: u32,
    state: State,
    book: &[u8],
    line: &[u8],
    flags: &[[bool; INDICES]; FAMILIES],
    slots: &mut [u32],
) -> Passed
    requires book { IsBook book.now }
    requires line_len_bound { length line.now ≤ LIMIT }
    requires flags { Flags flags.now }
    requires slots_len { length slots.old ≡ firsts }
    ensures passes { Passes (book_in book.now) state slots.old n line.now result.state slots.new }
    ensures header_value { result.header ≡ is_header (book_in book.now) line.now }
{
    let sort = sort_of(book, line);
    match sort {
        Sort::Silent | Sort::Unknown => Passed {
            state,
            header: false,
        },
        Sort::Meta => {
            let mut none = [0u32; 1];
            let tag = Tag {
                line: n,
                control: 0,
            };
            judge_meta(&mut none, 0, book, line, tag, false, flags, slots);
            Passed {
                state,
                header: false,
            }
        }
        Sort::Header(h) => {
            let slot = header_slot(h);
            let first = slots[slot];
            slots[slot] = first_kept(first, n);
            let width = count_cells(line);
            let state = after_header(state, h, width);
            Passed {
                state,
                header: true,
            }
        }
        Sort::Row(r) => {
            let state = after_row(state, r);
            Passed {
                state,
                header: false,
            }
        }
    }
}

// The place of the nearest header: that of the line just passed where it is one, else the one before.
fn nearer_head(header: bool, at: usize, head: usize) -> usize
    ensures { result ≡ cond header at head }
{
    if header { at } else { head }
}

// The place of the line sought, that of the nearest header among the lines above it, and the state that stands for these.
#[derive(Clone, Copy)]
pub struct Reached {
    pub at: usize,
    pub head: usize,
    pub state: State,
}

// Passes the lines above a line, from the first on; there is no answer where the line is not there. The slots lent get the first lines of the keys and headers
// above; the ids are those that the whole file declares.
fn reach(
    line: u32,
    book: &[u8],
    file: &[u8],
    first: State,
    flags: &[[bool; INDICES]; FAMILIES],
    slots: &mut [u32],
) -> Option<Reached>
    requires book { IsBook book.now }
    requires file_len_bound { length file.now ≤ LIMIT }
    requires reaches { Reaches (book_in book.now) file.now 0 0 first slots.old }
    requires section_value { first.section ≡ 0 }
    requires asking_of { AskingOf (book_in book.now) (lines file.now) first.asking }
    requires flags { Flags flags.now }
    requires slots_len { length slots.old ≡ firsts }
    ensures reached { MatchOption result (1 ≤ line → length (lines file.now) < line) (Sought (book_in book.now) file.now line slots.new) }
    ensures slots_len_2 { length slots.new ≡ firsts }
{
    let mut state = first;
    let mut head = 0;
    let mut at = 0;
    for n in 1..line {
        if file.len() <= at {
            return None;
        }
        let here = line_at(file, at);
        let end = here.end;
        let passed = pass_line(n, state, book, &file[at..end], flags, slots);
        state = passed.state;
        head = nearer_head(passed.header, at, head);
        at = here.next;
    }
    let there = (0 < line) & (at < file.len());
    there.then_some(Reached { at, head, state })
}

// The kinds of the columns of the nearest header above, which begins at `head`, where the state says that there is one. Its breaks are not asked for.
fn learn_kinds(
    state: State,
    head: usize,
    book: &[u8],
    file: &[u8],
    flags: &[[bool; INDICES]; FAMILIES],
    kinds: &mut [u8; MOST_CELLS],
)
    requires book { IsBook book.now }
    requires file_len_bound { length file.now ≤ LIMIT }
    requires head_in_bounds { 0 < state.section → (head < length file.now) × (is_section (book_in book.now) state.section ≡ true) }
    requires kinds_len { length kinds.old ≡ 256 }
    ensures learnt { Learnt (book_in book.now) file.now head state.section kinds.new }
    ensures kinds_len_2 { length kinds.new ≡ 256 }
{
    let section = state.section;
    if section == 0 {
        return;
    }
    let here = line_at(file, head);
    let end = here.end;
    let mut none = [0u32; 1];
    let mut stamps = [0u32; ROOM];
    let tag = Tag {
        line: 0,
        control: 0,
    };
    let nearest = Head {
        tag,
        section,
        asking: state.asking,
        first: 0,
        later: false,
    };
    judge_head(
        &mut none,
        0,
        book,
        &file[head..end],
        nearest,
        flags,
        kinds,
        &mut stamps,
    );
}

// One line under what the whole file says, where it is there: its breaks are in the places, and their count is the answer.
fn judge_alone(
    places: &mut [u32],
    line: u32,
    book: &[u8],
    file: &[u8],
    begun: Carried,
) -> Option<u32>
    requires book { IsBook book.now }
    requires going { Going (book_in book.now) file.now begun (replicate firsts 0) }
    requires stand_value { begun.stand ≡ beginning begun.stand.state.asking }
    ensures { MatchOption result ((is_line file.now line ≡ false) × (places.new ≡ places.old)) (λ k. (is_line file.now line ≡ true) × (lent places.new k ≡ put_all (lent places.old 0) (line_of (book_in book.now) (lines file.now) line))) }
{
    let flags = begun.flags;
    let mut slots = [0u32; FIRSTS];
    let reached = reach(line, book, file, begun.stand.state, &flags, &mut slots)?;
    let mut kinds = begun.kinds;
    let state = reached.state;
    learn_kinds(state, reached.head, book, file, &flags, &mut kinds);
    let at = reached.at;
    let next = at + 1;
    let bounds = Bounds { room: 1, end: next };
    let above = line - 1;
    let stand = Stand {
        more: true,
        at,
        lines: above,
        before: 0,
        held: 0,
        state,
    };
    let judged = judge_lines(
        places, bounds, book, file, stand, &flags, &mut kinds, &mut slots,
    );
    Some(judged.held)
}

// The breaks of one line, 1 to N, judged under the whole file: their count is the answer, and those that fit are written, four places each: rule, line, cell,
// first. A file over the limit is refused, and a line that is not there, and then the list stays as it was.
pub fn judge_line_places(file: &[u8], line: u32, places: &mut [u32]) -> Result<u32, Refusal>
    ensures { outcome (number_in result) (answer_or 0 result) places.new ≡ judged_line file.now line places.old }
{
    let rows = book();
    let begun = begin(&rows, file)?;
    judge_alone(places, line, &rows, file, begun).ok_or(Refusal::NoRow)
}
