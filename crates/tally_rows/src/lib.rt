// What the lines of a file add to its tally, found in one walk: the rows of each section, and the counts in the cells of protein rows.
#![tactic(auto)]

ghost use Rattle.std.specs.Prelude.{◌≡◌, ℕ, ◌≤◌, length};
ghost use Rattle.text.specs.Lines.{LIMIT as limit};
ghost use Rattle.column_marks.specs.Marks.{IsMarks};
ghost use Rattle.tally_rows.specs.Counts.{share as share_of, nine, Reads, count_adds, section_adds, row_adds, row_section, line_adds, lines_add, Room, Adds};

use column_marks::{DISTINCT, PSMS, UNIQUE};
use scan::state::MOST_CELLS;
use tally::{Distinct, Psms, Tally, Unique, nothing};
use tally_cells::{Counted, count_at};
use text::cells::cell_end;
use text::lines::line_at;
use text_bytes::same_bytes;

// The sections of rows, as numbers; 0 for a line that is no row.
// Kept: what a row adds is said by these numbers (`tally_rows/specs/Counts.antt: row_section, section_adds`).
const PROTEIN: u8 = 1;

const PEPTIDE: u8 = 2;

const PSM: u8 = 3;

const SMALL_MOLECULE: u8 = 4;

// What a walk has found so far: the tally, and how many counts are below zero.
#[derive(Clone, Copy)]
pub struct Found {
    pub tally: Tally,
    pub below: u64,
}

// n where two numbers are the same, else 0.
fn share(a: u8, b: u8, n: u64) -> u64
    ensures { result ≡ share_of a b n }
{
    if a == b { n } else { 0 }
}

// What the cell that begins at a place says, where its column has a counter; else only where it ends.
fn read_cell(line: &[u8], at: usize, counter: u8) -> Counted
    requires { at ≤ length line.now }
    ensures { Reads line.now at counter result }
{
    if counter == 0 {
        let end = cell_end(line, at);
        return Counted {
            end,
            count: 0,
            missing: 0,
            below: 0,
        };
    }
    count_at(line, at)
}

// A cell's count goes to its column's counter, and to no other.
fn with_cell(f: Found, counter: u8, c: Counted) -> Found
    requires { Room (count_adds counter c) f }
    ensures { Adds (count_adds counter c) f result }
{
    let mut t = f.tally;
    let psms = Psms(t.psms.0 + share(counter, PSMS, c.count));
    let distinct = Distinct(t.distinct.0 + share(counter, DISTINCT, c.count));
    let unique = Unique(t.unique.0 + share(counter, UNIQUE, c.count));
    t.psms = psms;
    t.distinct = distinct;
    t.unique = unique;
    t.missing += c.missing;
    Found {
        tally: t,
        below: f.below + c.below,
    }
}

// The cells of a protein row, no further than counters go.
fn with_cells(f: Found, line: &[u8], marks: &[u8; MOST_CELLS], width: usize) -> Found
    requires marks { IsMarks marks.now width }
    requires room { Room (row_adds marks.now line.now) f }
    ensures { Adds (row_adds marks.now line.now) f result }
{
    let mut found = f;
    let mut at = 0;
    for k in 0..width {
        let counter = marks[k];
        let c = read_cell(line, at, counter);
        found = with_cell(found, counter, c);
        if c.end == line.len() {
            return found;
        }
        at = c.end + 1;
    }
    found
}

// The section of a row, by its code; 0 for any other line.
fn row_section(line: &[u8]) -> u8
    ensures { result ≡ row_section line.now }
{
    let e = cell_end(line, 0);
    let code = &line[..e];
    if same_bytes(code, b"PRT") {
        return PROTEIN;
    }
    if same_bytes(code, b"PEP") {
        return PEPTIDE;
    }
    if same_bytes(code, b"PSM") {
        return PSM;
    }
    if same_bytes(code, b"SML") {
        return SMALL_MOLECULE;
    }
    0
}

// A row more in its section; no section, no row.
fn with_row(f: Found, section: u8) -> Found
    requires { Room (section_adds section) f }
    ensures { Adds (section_adds section) f result }
{
    let mut t = f.tally;
    t.protein_rows += share(section, PROTEIN, 1);
    t.peptide_rows += share(section, PEPTIDE, 1);
    t.psm_rows += share(section, PSM, 1);
    t.small_molecule_rows += share(section, SMALL_MOLECULE, 1);
    Found {
        tally: t,
        below: f.below,
    }
}

// A line: a row counts in its section, and the cells of a protein row by their columns.
fn with_line(f: Found, line: &[u8], marks: &[u8; MOST_CELLS], width: usize) -> Found
    requires marks { IsMarks marks.now width }
    requires room { Room (line_adds marks.now line.now) f }
    ensures { Adds (line_adds marks.now line.now) f result }
{
    let section = row_section(line);
    let found = with_row(f, section);
    if section != PROTEIN {
        return found;
    }
    with_cells(found, line, marks, width)
}

// All lines of the file, one after the other.
pub fn found_in(file: &[u8], marks: &[u8; MOST_CELLS], width: usize) -> Found
    requires marks { IsMarks marks.now width }
    requires file_len_bound { length file.now ≤ limit }
    ensures { (i : ℕ) → nine result i ≡ lines_add marks.now file.now i }
{
    let tally = nothing();
    let mut found = Found { tally, below: 0 };
    let mut at = 0;
    while at < file.len() {
        let line = line_at(file, at);
        let end = line.end;
        found = with_line(found, &file[at..end], marks, width);
        at = line.next;
    }
    found
}
