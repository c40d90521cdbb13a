// Judging one line by its sort, from the state that stands for the lines above.
#![tactic(auto)]

ghost use Rattle.std.specs.Prelude.{◌≡◌, ◌+◌, ◌≤◌, length};
ghost use Rattle.text.specs.Lines.{LIMIT};
ghost use Rattle.rules.specs.Sorts.{control_cell};
ghost use Rattle.scan.specs.Places.{CEILING, LINE_MOST, lent, Puts};
ghost use Rattle.book.specs.Text.{book_in, IsBook};
ghost use Rattle.book_ids.specs.Ids.{Flags};
ghost use Rattle.line_head_stamps.specs.Stamps.{ROOM};
ghost use Rattle.scan.specs.Machine.{FIRSTS, ids_of, unknown_breaks};
ghost use Rattle.scan.specs.Carried.{line_breaks, Follows};

use line_head::{Head, judge_head};
use line_meta::judge_meta;
use line_row::judge_row;
use rules::sorts::{Sort, sort_of};
use scan::places::{Tag, put_if};
use scan::state::{MOST_CELLS, State, after_header, after_row, first_kept, header_slot};
use text::cells::count_cells;
use value_references::{FAMILIES, INDICES};

// The number of the first cell with a control byte, 0 where there is none.
fn control_of(line: &[u8]) -> u32
    requires { length line.now ≤ LIMIT }
    ensures { result ≡ control_cell line.now }
{
    text::cells::control_cell(line) as u32
}

// Rule 2: an unknown line code.
fn judge_unknown(places: &mut [u32], count: u32, tag: Tag) -> u32
    requires { count + 3 ≤ CEILING }
    ensures { Puts (unknown_breaks tag.control tag.line) 3 (lent places.old count) (lent places.new result) }
{
    let k1 = put_if(places, count, tag.control == 1, 1, tag.line, 1);
    let k2 = put_if(places, k1, true, 2, tag.line, 1);
    put_if(places, k2, 1 < tag.control, 1, tag.line, tag.control)
}

// A line's number; and before or after it, how many breaks were put, and the state that stands for the lines above.
#[derive(Clone, Copy)]
pub struct Step {
    pub line: u32,
    pub count: u32,
    pub state: State,
}

// A line, whatever its sort, under what is carried of the lines above it: the step, the kinds of the nearest header's columns, the first lines of the keys and
// headers that came, and stamps that make the search for equal names short; `flags` are the ids that the whole file declares. The answer is the step after it.
pub fn judge_line(
    places: &mut [u32],
    step: Step,
    book: &[u8],
    line: &[u8],
    flags: &[[bool; INDICES]; FAMILIES],
    kinds: &mut [u8; MOST_CELLS],
    slots: &mut [u32],
    stamps: &mut [u32],
) -> Step
    requires count_bound { step.count + LINE_MOST ≤ CEILING }
    requires book { IsBook book.now }
    requires line_len_bound { length line.now ≤ LIMIT }
    requires flags { Flags flags.now }
    requires kinds_len { length kinds.old ≡ 256 }
    requires slots_len { length slots.old ≡ FIRSTS }
    requires stamps_len { length stamps.old ≡ ROOM }
    ensures puts { Puts (line_breaks (book_in book.now) (ids_of flags.now) step.state kinds.old slots.old step.line line.now) LINE_MOST (lent places.old step.count) (lent places.new result.count) }
    ensures follows { Follows (book_in book.now) step.state kinds.old slots.old step.line line.now result.state kinds.new slots.new }
    ensures stamps_len_2 { length stamps.new ≡ ROOM }
{
    let sort = sort_of(book, line);
    let control = control_of(line);
    let tag = Tag {
        line: step.line,
        control,
    };
    let count = step.count;
    let state = step.state;
    match sort {
        Sort::Silent => step,
        Sort::Unknown => {
            let count = judge_unknown(places, count, tag);
            Step { count, ..step }
        }
        Sort::Meta => {
            let count = judge_meta(places, count, book, line, tag, state.table, flags, slots);
            Step { count, ..step }
        }
        Sort::Header(h) => {
            let slot = header_slot(h);
            let first = slots[slot];
            let head = Head {
                tag,
                section: h,
                asking: state.asking,
                first,
                later: h < state.highest,
            };
            let width = count_cells(line);
            let count = judge_head(places, count, book, line, head, flags, kinds, stamps);
            slots[slot] = first_kept(first, tag.line);
            let state = after_header(state, h, width);
            Step {
                count,
                state,
                ..step
            }
        }
        Sort::Row(r) => {
            let count = judge_row(
                places,
                count,
                line,
                r,
                tag,
                state.section,
                state.width,
                kinds,
            );
            let state = after_row(state, r);
            Step {
                count,
                state,
                ..step
            }
        }
    }
}
