// The rows of a section, in the file's order, whatever breaks the file has, and the columns of a line.
#![tactic(auto)]

ghost use Rattle.std.specs.Prelude.{◌≡◌, true, ◌≤◌, length};
ghost use Rattle.std.proofs.Math.ListN.{get_elem?};
ghost use Rattle.text_bytes.specs.Bytes.{count};
ghost use Rattle.text.specs.Lines.{LIMIT as limit, lines, coded};
ghost use Rattle.book.specs.Book.{is_section, book_of};
ghost use Rattle.numbers.specs.Refusals.{number_in, answer_or};
ghost use Rattle.rows.specs.Rows.{numbered, having, row_of, FindsRow, FindsColumn};
ghost use Rattle.rows.specs.Counted.{counted, rows_in};

use book::directory::{code_of, is_section};
use book_text::directory;
use numbers::Refusal;
use text::{LIMIT, Part, cells, lines};

// A line of the file: its number, and where its text starts and ends.
#[derive(Clone, Copy)]
pub struct Row {
    pub line: u32,
    pub start: usize,
    pub end: usize,
}

// Of the lines whose cell 1 is the code, the one that has n before it.
// Kept: the new form is no plainer: a row is told by its place, which over an iterator of the pieces that LF ends would be counted by hand as well.
fn nth_coded(file: &[u8], code: &[u8], n: usize) -> Option<Row>
    requires { length file.now ≤ limit }
    ensures { FindsRow file.now (get_elem? (having code.now (numbered 1 (lines file.now))) n) result }
{
    let mut at = 0;
    let mut left = n;
    let mut line_no: u32 = 1;
    while at < file.len() {
        let line = lines::line_at(file, at);
        let end = line.end;
        let after = line_no + 1;
        if cells::has_code(&file[at..end], code) {
            if left == 0 {
                return Some(Row {
                    line: line_no,
                    start: at,
                    end,
                });
            }
            left -= 1;
        }
        at = line.next;
        line_no = after;
    }
    None
}

// Row 0 is the section's first header, row r the r-th line with its row code.
pub fn row_of(file: &[u8], section: u32, row: u32) -> Option<Row>
    requires { (length file.now ≤ limit) × (is_section (book_of (lines file.now)) section ≡ true) }
    ensures { FindsRow file.now (row_of file.now section row) result }
{
    let book = directory();
    let code = code_of(&book, section, row);
    if row == 0 {
        return nth_coded(file, code, 0);
    }
    nth_coded(file, code, (row - 1) as usize)
}

// Column c of a line is its cell c + 1; there is no column 0.
pub fn column_of(line: &[u8], column: u32) -> Option<Part>
    ensures { FindsColumn line.now column result }
{
    if column == 0 {
        return None;
    }
    cells::nth_cell(line, column as usize)
}

// How many lines have the code as their cell 1.
// Kept: the new form is no plainer: where a line ends, with the CR before its LF or without, is told by `line_at`, and the pieces that LF ends would be cut once more.
fn count_coded(file: &[u8], code: &[u8]) -> u32
    requires { length file.now ≤ limit }
    ensures { result ≡ count (coded code.now) (lines file.now) }
{
    let mut at = 0;
    let mut n: u32 = 0;
    while at < file.len() {
        let line = lines::line_at(file, at);
        let end = line.end;
        if cells::has_code(&file[at..end], code) {
            n += 1;
        }
        at = line.next;
    }
    n
}

// How many rows a section has, whatever breaks the file has; or why it is refused, tried in the order 1, 2.
pub fn rows(file: &[u8], section: u32) -> Result<u32, Refusal>
    ensures { counted (number_in result) (answer_or 0 result) ≡ rows_in file.now section }
{
    if LIMIT < file.len() {
        return Err(Refusal::TooLong);
    }
    let book = directory();
    if !is_section(&book, section) {
        return Err(Refusal::NoSection);
    }
    let code = code_of(&book, section, 1);
    Ok(count_coded(file, code))
}
