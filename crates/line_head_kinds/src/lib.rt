// The kinds of a header's columns, where nothing else is asked of their names.
#![tactic(auto)]

ghost use Rattle.std.specs.Prelude.{◌≡◌, ◌≤◌, length, drop};
ghost use Rattle.text.specs.Lines.{cells};
ghost use Rattle.book.specs.Text.{book_in, IsBook};
ghost use Rattle.scan.specs.Machine.{KindsOf};

use book::column;
use line_head_found::kind_in;
use scan::state::MOST_CELLS;
use text::cells::cell_end;

// The kinds of the columns of a header of the section, which has so many cells: cell c's at place c - 1. Of one that has over 256 none are asked for.
pub fn learn_kinds(
    book: &[u8],
    line: &[u8],
    section: u32,
    width: usize,
    kinds: &mut [u8; MOST_CELLS],
)
    requires book { IsBook book.now }
    requires width_value { width ≡ length (cells line.now) }
    requires kinds_len { length kinds.old ≡ 256 }
    ensures kinds_of { length (cells line.now) ≤ 256 → KindsOf (book_in book.now) section (drop 1 (cells line.now)) kinds.new }
    ensures kinds_len_2 { length kinds.new ≡ 256 }
{
    if MOST_CELLS < width {
        return;
    }
    let mut end = cell_end(line, 0);
    for c in 1..width {
        let at = end + 1;
        end = cell_end(line, at);
        let found = column(book, section as usize, &line[at..end]);
        kinds[c] = kind_in(found);
    }
}
