// A row copied, with `null` in its empty cells where that may stand.
#![tactic(auto)]

ghost use Rattle.std.specs.Prelude.{◌≡◌, cond, ◌&&◌, [], ◌+◌, ◌-◌, ◌*◌, ◌≤◌, length, drop};
ghost use Rattle.text.specs.Lines.{cells};
ghost use Rattle.text.specs.Joined.{tabbed};
ghost use Rattle.rules.specs.Breaks.{break_at, when};
ghost use Rattle.rules.specs.Mended.{NULL};
ghost use Rattle.scan.specs.Places.{lent};
ghost use Rattle.mender_places.specs.Places.{Mends, COPY_MOST, CHANGES_MOST};
ghost use Rattle.mender_rows.specs.Rows.{fills_in, filled, found, is_even, row_filled, row_found, has_hole};

use mender_places::{Copied, lay, note};
use scan::state::MOST_CELLS;
use text::cells::{TAB, cell_end, count_cells};

// The kind of a column where `null` may not stand.
const KEPT: u8 = b'K';

// Whether a cell after the first is empty: a tab with another after it, or at the end. It has no early end, so that it is compiled to a few instructions over 16
// bytes each.
fn has_hole(line: &[u8]) -> bool
    ensures { result ≡ has_hole (cells line.now) }
{
    if line.len() == 0 {
        return false;
    }
    let last = line.len() - 1;
    let mut hit = line[last] == TAB;
    for i in 0..last {
        hit |= (line[i] == TAB) & (line[i + 1] == TAB);
    }
    hit
}

// Cell c of the row on line n, whose column has the kind.
fn fill_cell(
    copy: &mut [u8],
    changes: &mut [u32],
    so: Copied,
    cell: &[u8],
    n: u32,
    c: u32,
    kind: u8,
) -> Copied
    requires { (so.to + length cell.now + 4 ≤ COPY_MOST) × (so.count + 1 ≤ CHANGES_MOST) }
    ensures { Mends (cond (fills_in kind cell.now) NULL cell.now) (when (fills_in kind cell.now) (break_at n c 19) []) (length cell.now + 4) 1 (lent copy.old so.to) (lent copy.new result.to) (lent changes.old so.count) (lent changes.new result.count) }
{
    let count = so.count;
    let fills = cell.is_empty() & (kind != KEPT);
    if fills {
        let to = lay(copy, so.to, b"null");
        let more = note(changes, count, n, c);
        return Copied { to, count: more };
    }
    let to = lay(copy, so.to, cell);
    Copied { to, count }
}

// The cells of the row on line n from cell 2 on, which begins at `from`, with tabs between.
// Kept: the new form is no plainer: a tab is laid behind every cell but the last, and an iterator over cells would have to be asked for the next one to tell it.
fn fill_cells(
    copy: &mut [u8],
    changes: &mut [u32],
    so: Copied,
    line: &[u8],
    from: usize,
    n: u32,
    kinds: &[u8; MOST_CELLS],
) -> Copied
    requires from_in_bounds { from ≤ length line.now }
    requires line_len_bound { length (cells (drop from line.now)) ≤ 255 }
    requires from_bound { (so.to + 5 * (length line.now - from) + 4 ≤ COPY_MOST) × (so.count + (length line.now - from) + 1 ≤ CHANGES_MOST) }
    ensures { Mends (tabbed (filled kinds.now 2 (cells (drop from line.now)))) (found kinds.now n 2 (cells (drop from line.now))) (5 * (length line.now - from) + 4) (length line.now - from + 1) (lent copy.old so.to) (lent copy.new result.to) (lent changes.old so.count) (lent changes.new result.count) }
{
    let mut to = so.to;
    let mut count = so.count;
    let mut at = from;
    let mut c: u32 = 2;
    loop {
        let e = cell_end(line, at);
        let kind = kinds[(c - 1) as usize];
        let here = Copied { to, count };
        let s = fill_cell(copy, changes, here, &line[at..e], n, c, kind);
        if e == line.len() {
            return s;
        }
        to = lay(copy, s.to, b"\t");
        count = s.count;
        at = e + 1;
        c += 1;
    }
}

// The nearest header above: its section, 0 for none, and how many cells it has.
#[derive(Clone, Copy)]
pub struct Above {
    pub section: u32,
    pub width: usize,
}

// Whether the row is judged by its cells, and has an empty one after the first.
fn is_holed(line: &[u8], section: u32, above: Above) -> bool
    ensures { result ≡ (is_even above.section above.width section (cells line.now) && has_hole (cells line.now)) }
{
    above.section == section
        && above.width <= MOST_CELLS
        && has_hole(line)
        && count_cells(line) == above.width
}

// A row of the section, on line n, under that header, whose columns have these kinds: most have no empty cell, and are laid as they stand.
pub fn fill_row(
    copy: &mut [u8],
    changes: &mut [u32],
    so: Copied,
    line: &[u8],
    n: u32,
    section: u32,
    above: Above,
    kinds: &[u8; MOST_CELLS],
) -> Copied
    requires { (so.to + 5 * length line.now ≤ COPY_MOST) × (so.count + length line.now ≤ CHANGES_MOST) }
    ensures { Mends (tabbed (row_filled above.section above.width kinds.now section (cells line.now))) (row_found above.section above.width kinds.now section n (cells line.now)) (5 * length line.now) (length line.now) (lent copy.old so.to) (lent copy.new result.to) (lent changes.old so.count) (lent changes.new result.count) }
{
    if !is_holed(line, section, above) {
        let to = lay(copy, so.to, line);
        return Copied {
            to,
            count: so.count,
        };
    }
    let e = cell_end(line, 0);
    let from = e + 1;
    let to = lay(copy, so.to, &line[..from]);
    let here = Copied {
        to,
        count: so.count,
    };
    fill_cells(copy, changes, here, line, from, n, kinds)
}
