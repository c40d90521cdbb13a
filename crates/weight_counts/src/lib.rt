// What the rows of a file add to the weights of its study variables, by the study variable of each column.
#![tactic(auto)]

ghost use Rattle.std.specs.Prelude.{◌≡◌, ℕ, ◌-◌, ◌≤◌, length, get_or};
ghost use Rattle.text.specs.Lines.{LIMIT as limit, lines, cells};
ghost use Rattle.weight_counts.specs.Counts.{IsMarks, with_cell, adds, marks as marked, line_adds, lines_add, Room, Raises};

use scan::state::MOST_CELLS;
use text::cells::{cell_end, has_code};
use text::lines::line_at;
use text_bytes::same_bytes;

// A cell of a row counts for its column's study variable, where that has one and the cell is not `null`.
fn count_cell(weights: &mut [u32], mark: u8, cell: &[u8])
    requires { (length weights.old ≡ 64) × (mark ≤ 64) × (get_or weights.old (mark - 1) 0 ≤ limit) }
    ensures { weights.new ≡ with_cell mark cell.now weights.old }
{
    if mark == 0 {
        return;
    }
    if same_bytes(cell, b"null") {
        return;
    }
    let i = usize::from(mark) - 1;
    weights[i] += 1;
}

// The cells of a protein row, no further than marks go.
fn count_row(weights: &mut [u32], line: &[u8], marks: &[u8; MOST_CELLS], width: usize)
    requires marks { IsMarks marks.now width }
    requires room { Room (λ i. adds (marked marks.now i) 0 (cells line.now)) weights.old }
    ensures { Raises (λ i. adds (marked marks.now i) 0 (cells line.now)) weights.old weights.new }
{
    let mut at = 0;
    for k in 0..width {
        let e = cell_end(line, at);
        count_cell(weights, marks[k], &line[at..e]);
        if e == line.len() {
            return;
        }
        at = e + 1;
    }
}

// A line counts where it is a protein row.
fn count_line(weights: &mut [u32], line: &[u8], marks: &[u8; MOST_CELLS], width: usize)
    requires marks { IsMarks marks.now width }
    requires room { Room (λ i. line_adds marks.now i line.now) weights.old }
    ensures { Raises (λ i. line_adds marks.now i line.now) weights.old weights.new }
{
    if has_code(line, b"PRT") {
        count_row(weights, line, marks, width);
    }
}

// All lines of the file, one after the other.
pub fn count_lines(weights: &mut [u32], file: &[u8], marks: &[u8; MOST_CELLS], width: usize)
    requires marks { IsMarks marks.now width }
    requires room { Room (λ i. lines_add marks.now i (lines file.now)) weights.old }
    ensures { Raises (λ i. lines_add marks.now i (lines file.now)) weights.old weights.new }
{
    let mut at = 0;
    // Kept: goes from line to line by where the next begins, and counts nothing.
    while at < file.len() {
        let line = line_at(file, at);
        let end = line.end;
        count_line(weights, &file[at..end], marks, width);
        at = line.next;
    }
}

// Each weight is 0.
pub fn clear(weights: &mut [u32])
    ensures weights_len_unchanged { length weights.new ≡ length weights.old }
    ensures by_index { (i : ℕ) → get_or weights.new i 0 ≡ 0 }
{
    weights.fill(0);
}
