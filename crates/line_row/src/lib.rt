// Judging a row: rules 1 and 17 to 20, put into the lent places.
#![tactic(auto)]

ghost use Rattle.std.specs.Prelude.{◌+◌, ◌≤◌, length, drop};
ghost use Rattle.text.specs.Lines.{cells};
ghost use Rattle.scan.specs.Places.{CEILING, CELLS_MOST, LINE_MOST, lent, Puts};
ghost use Rattle.scan.specs.Machine.{each_cell, kind_cell, row_cell, row_breaks, row_first};

use book_kinds::cell_of_kind;
use scan::places::{Tag, put_if};
use scan::state::MOST_CELLS;
use text::cells::{cell_end, count_cells};

// Cell c of a row, whose column has the kind: it is empty (19), or not of the kind (20).
fn row_cell(places: &mut [u32], count: u32, cell: &[u8], c: u32, tag: Tag, kind: u8) -> u32
    requires { count + 3 ≤ CEILING }
    ensures { Puts (kind_cell kind tag.control tag.line c cell.now) 3 (lent places.old count) (lent places.new result) }
{
    let good = cell_of_kind(kind, cell);
    let empty = cell.is_empty();
    let hit = tag.control == c;
    let bad = hit | empty | !good;
    if !bad {
        return count;
    }
    let k1 = put_if(places, count, hit, 1, tag.line, c);
    let k2 = put_if(places, k1, empty, 19, tag.line, c);
    put_if(places, k2, !empty & !good, 20, tag.line, c)
}

// The cells of a row from cell 2 on, which begins at `from`. Cell i + 1 has the kind at place i, and there are no more cells than kinds.
fn row_cells(
    places: &mut [u32],
    count: u32,
    line: &[u8],
    from: usize,
    tag: Tag,
    kinds: &[u8; MOST_CELLS],
) -> u32
    requires from_in_bounds { from ≤ length line.now }
    requires line_len_bound { length (cells (drop from line.now)) ≤ 255 }
    requires count_bound { count + CELLS_MOST ≤ CEILING }
    ensures { Puts (each_cell (row_cell kinds.now tag.control tag.line) 2 (cells (drop from line.now))) CELLS_MOST (lent places.old count) (lent places.new result) }
{
    let mut at = from;
    let mut k = count;
    for i in 1..MOST_CELLS {
        let e = cell_end(line, at);
        let kind = kinds[i];
        k = row_cell(places, k, &line[at..e], i as u32 + 1, tag, kind);
        if e == line.len() {
            return k;
        }
        at = e + 1;
    }
    k
}

// Cell 1 of a row: it is not under a header of its section (17), or is and has another number of cells (18).
fn row_code(places: &mut [u32], count: u32, tag: Tag, headed: bool, uneven: bool) -> u32
    requires { count + 3 ≤ CEILING }
    ensures { Puts (row_first headed uneven tag.control tag.line) 3 (lent places.old count) (lent places.new result) }
{
    let k1 = put_if(places, count, tag.control == 1, 1, tag.line, 1);
    let k2 = put_if(places, k1, !headed, 17, tag.line, 1);
    put_if(places, k2, uneven, 18, tag.line, 1)
}

// The breaks of a row of the section, put after the first `count`; the answer is how many there are then. The nearest header above is of the section
// `header`, 0 for none, and has `width` cells of these kinds.
pub fn judge_row(
    places: &mut [u32],
    count: u32,
    line: &[u8],
    section: u32,
    tag: Tag,
    header: u32,
    width: usize,
    kinds: &[u8; MOST_CELLS],
) -> u32
    requires { count + LINE_MOST ≤ CEILING }
    ensures { Puts (row_breaks header width kinds.now section tag.control tag.line (cells line.now)) LINE_MOST (lent places.old count) (lent places.new result) }
{
    let headed = header == section;
    let under = headed & (width <= MOST_CELLS);
    let even = count_cells(line) == width;
    let k = row_code(places, count, tag, headed, under & !even);
    if !(under & even) {
        return put_if(places, k, 1 < tag.control, 1, tag.line, tag.control);
    }
    let e = cell_end(line, 0);
    if e == line.len() {
        return k;
    }
    row_cells(places, k, line, e + 1, tag, kinds)
}
