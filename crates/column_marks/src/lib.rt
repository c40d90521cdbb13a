// The mark of each column of a file's first protein header: the study variable or the counter that its cells count for.
#![tactic(auto)]

ghost use Rattle.std.specs.Prelude.{◌≡◌, cond, ◌+◌, ◌≤◌, ◌<◌, eqb, length};
ghost use Rattle.text.specs.Lines.{LIMIT as limit};
ghost use Rattle.rows.specs.Rows.{header_of};
ghost use Rattle.column_marks.specs.Columns.{PROTEIN as protein};
ghost use Rattle.column_marks.specs.Marks.{variable_of, counter_of, mark_of, Marked};

use rows::row_of;
use scan::state::MOST_CELLS;
use text::cells::cell_end;
use value_references::reference;

// The section of the rows that are counted.
const PROTEIN: u32 = 1;

// What a column is marked with: its study variable, or its counter.
// Kept: `marks_of` over an `impl Fn(&[u8]) -> u8` was tried and proves, but at a call of it the check stops at a bug of its own.
#[derive(Clone, Copy)]
pub enum Asked {
    Variables,
    Counters,
}

// The counters, as marks.
// Kept: a header's marks are one byte each, 0 for none, and the definitions say them as numbers (`column_marks/specs/Marks.antt: counter_of, IsMarks`).
pub const PSMS: u8 = 1;

pub const DISTINCT: u8 = 2;

pub const UNIQUE: u8 = 3;

// The mark of each cell of a header, 0 for none, and after which cell there is none more.
#[derive(Clone, Copy)]
pub struct Marks {
    pub of: [u8; MOST_CELLS],
    pub width: usize,
}

// The study variable whose abundance a column has, by its name; 0 for any other column.
fn variable_of(name: &[u8]) -> u8
    ensures { result ≡ variable_of name.now }
{
    let i = reference(b"protein_abundance_study_variable", name);
    i as u8
}

// The counter of a column, by its name; 0 for any other column.
fn counter_of(name: &[u8]) -> u8
    ensures { result ≡ counter_of name.now }
{
    if reference(b"num_psms_ms_run", name) != 0 {
        return PSMS;
    }
    if reference(b"num_peptides_distinct_ms_run", name) != 0 {
        return DISTINCT;
    }
    if reference(b"num_peptides_unique_ms_run", name) != 0 {
        return UNIQUE;
    }
    0
}

// The mark of a column, by its name.
fn mark_of(asked: Asked, name: &[u8]) -> u8
    ensures { result ≡ mark_of asked name.now }
{
    match asked {
        Asked::Variables => variable_of(name),
        Asked::Counters => counter_of(name),
    }
}

// How many cells hold all marks, where cell k has this one and those before it need `width`.
fn widened(width: usize, k: usize, mark: u8) -> usize
    requires { k < 256 }
    ensures { result ≡ cond (eqb mark 0) width (k + 1) }
{
    if mark == 0 { width } else { k + 1 }
}

// The marks of a header's cells; cells past the 256th have none.
fn marks_in(header: &[u8], asked: Asked) -> Marks
    ensures { Marked asked header.now result }
{
    let mut of = [0u8; MOST_CELLS];
    let mut width = 0;
    let mut at = 0;
    for k in 0..MOST_CELLS {
        let e = cell_end(header, at);
        let mark = mark_of(asked, &header[at..e]);
        of[k] = mark;
        width = widened(width, k, mark);
        if e == header.len() {
            return Marks { of, width };
        }
        at = e + 1;
    }
    Marks { of, width }
}

// The marks of the first protein header; none where there is no header.
pub fn marks_of(file: &[u8], asked: Asked) -> Marks
    requires { length file.now ≤ limit }
    ensures { Marked asked (header_of file.now protein) result }
{
    let Some(header) = row_of(file, PROTEIN, 0) else {
        return marks_in(b"", asked);
    };
    marks_in(&file[header.start..header.end], asked)
}
