// The mending call: a copy of a file with `null` in the empty cells where it may stand. The file is walked twice by one function: lent next to nothing, it says
// how long the copy will be, and then it writes.
#![tactic(auto)]

ghost use Rattle.std.specs.Prelude.{◌≡◌, ◌+◌, ◌*◌, ◌≤◌, length};
ghost use Rattle.text.specs.Lines.{LIMIT as limit, lines, cells};
ghost use Rattle.text.specs.Joined.{tabbed};
ghost use Rattle.book.specs.Text.{book_in, IsBook};
ghost use Rattle.rules.specs.Sorts.{sort_of};
ghost use Rattle.rules.specs.Mended.{changes_by, copy_by};
ghost use Rattle.scan.specs.Places.{lent};
ghost use Rattle.mender_places.specs.Places.{lay_all, Mends, COPY_MOST, CHANGES_MOST};
ghost use Rattle.numbers.specs.Refusals.{number_in, answer_or};
ghost use Rattle.mender.specs.Mended.{outcome, none, mended};
ghost use Rattle.mender.specs.Walk.{sort_filled, sort_found, Passes};

use book_text::book;
use line_head_kinds::learn_kinds;
use mender_places::{Copied, lay};
use mender_rows::{Above, fill_row};
use numbers::Refusal;
use rules::sorts::{Sort, sort_of};
use scan::state::MOST_CELLS;
use text::LIMIT;
use text::cells::count_cells;
use text::lines::line_at;

// Where a walk stands: the number of the line, how many bytes are laid and changes noted, and the section and the number of cells of the nearest header above.
#[derive(Clone, Copy)]
pub struct Walk {
    pub line: u32,
    pub to: usize,
    pub count: u32,
    pub section: u32,
    pub width: usize,
}

// A line that stays as it is.
fn keep_line(copy: &mut [u8], walk: Walk, line: &[u8]) -> Walk
    requires { (walk.line + 1 ≤ CHANGES_MOST) × (walk.to + length line.now ≤ COPY_MOST) }
    ensures to_after { lent copy.new result.to ≡ lay_all (lent copy.old walk.to) line.now }
    ensures line_value { (result.line ≡ walk.line + 1) × (result.count ≡ walk.count) × (result.section ≡ walk.section) × (result.width ≡ walk.width) }
{
    let n = walk.line + 1;
    let to = lay(copy, walk.to, line);
    Walk {
        line: n,
        to,
        ..walk
    }
}

// The next line: a row is filled, a header is learnt, and any other line stays as it is.
fn mend_line(
    copy: &mut [u8],
    changes: &mut [u32],
    walk: Walk,
    book: &[u8],
    line: &[u8],
    kinds: &mut [u8; MOST_CELLS],
) -> Walk
    requires book { IsBook book.now }
    requires line_bound { (walk.line + 1 ≤ CHANGES_MOST) × (walk.to + 5 * length line.now ≤ COPY_MOST) × (walk.count + length line.now ≤ CHANGES_MOST) }
    requires kinds_len { length kinds.old ≡ 256 }
    ensures mends { Mends (tabbed (sort_filled (sort_of (book_in book.now) line.now) walk.section walk.width kinds.old (cells line.now))) (sort_found (sort_of (book_in book.now) line.now) walk.section walk.width kinds.old (walk.line + 1) (cells line.now)) (5 * length line.now) (length line.now) (lent copy.old walk.to) (lent copy.new result.to) (lent changes.old walk.count) (lent changes.new result.count) }
    ensures passes { Passes (book_in book.now) line.now walk.section walk.width kinds.old result.section result.width kinds.new }
    ensures line_value { result.line ≡ walk.line + 1 }
{
    let n = walk.line + 1;
    let sort = sort_of(book, line);
    match sort {
        Sort::Silent | Sort::Unknown | Sort::Meta => keep_line(copy, walk, line),
        Sort::Header(h) => {
            let width = count_cells(line);
            learn_kinds(book, line, h, width, kinds);
            let to = lay(copy, walk.to, line);
            Walk {
                line: n,
                to,
                section: h,
                width,
                ..walk
            }
        }
        Sort::Row(r) => {
            let so = Copied {
                to: walk.to,
                count: walk.count,
            };
            let above = Above {
                section: walk.section,
                width: walk.width,
            };
            let done = fill_row(copy, changes, so, line, n, r, above, kinds);
            Walk {
                line: n,
                to: done.to,
                count: done.count,
                ..walk
            }
        }
    }
}

// All lines, each with what ends it.
// Kept: the new form is no plainer: a line and what ends it are two parts by the places that `line_at` tells, and the pieces that LF ends would be cut once more.
fn mend_lines(copy: &mut [u8], changes: &mut [u32], book: &[u8], file: &[u8]) -> Copied
    requires book { IsBook book.now }
    requires file_len_bound { length file.now ≤ limit }
    ensures { Mends (copy_by (book_in book.now) file.now) (changes_by (book_in book.now) (lines file.now)) (5 * length file.now) (length file.now) (lent copy.old 0) (lent copy.new result.to) (lent changes.old 0) (lent changes.new result.count) }
{
    let mut kinds = [0u8; MOST_CELLS];
    let mut walk = Walk {
        line: 0,
        to: 0,
        count: 0,
        section: 0,
        width: 1,
    };
    let mut at = 0;
    while at < file.len() {
        let line = line_at(file, at);
        let end = line.end;
        let next = line.next;
        let done = mend_line(copy, changes, walk, book, &file[at..end], &mut kinds);
        let to = lay(copy, done.to, &file[end..next]);
        walk = Walk { to, ..done };
        at = next;
    }
    Copied {
        to: walk.to,
        count: walk.count,
    }
}

// Writes a copy of the file with `null` in every empty cell of a row where it may stand, and line and cell of each change, two places each, those that fit; the
// answer is the copy's length and the count of all changes. A file over the limit is refused as too long, a copy over the limit or with no room in the buffer as
// without room, and then nothing is written.
pub fn mend(file: &[u8], copy: &mut [u8], changes: &mut [u32]) -> Result<Copied, Refusal>
    ensures { outcome (number_in result) (answer_or none result).to (answer_or none result).count copy.new changes.new ≡ mended file.now copy.old changes.old }
{
    if LIMIT < file.len() {
        return Err(Refusal::TooLong);
    }
    let rows = book();
    let mut no_copy = [0u8; 1];
    let mut no_changes = [0u32; 1];
    let planned = mend_lines(&mut no_copy, &mut no_changes, &rows, file);
    let size = planned.to;
    let no_room = (LIMIT < size) | (copy.len() < size);
    if no_room {
        return Err(Refusal::NoRoom);
    }
    Ok(mend_lines(copy, changes, &rows, file))
}
