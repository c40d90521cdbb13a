// The cell calls: one function finds the place, and each call shows it in its own way.
ghost use Rattle.std.specs.Prelude.{◌≡◌, IfOk};
ghost use Rattle.text_bytes.specs.Bytes.{is};
ghost use Rattle.numbers.specs.Refusals.{number_in, answer_or};
ghost use Rattle.mztab.specs.Readings.{told, unread, reading_of};
ghost use Rattle.mztab.specs.Shown.{Placed, given, nowhere, view_in, sought, shown, or_else, Points, PointsOr};

use crate::records::Reading;
use book::directory::is_section;
use book_text::directory;
use numbers::Refusal;
use rows::{column_of, row_of};
use text::LIMIT;
use text_bytes::same_bytes;
use value_readings::read;

// Where a cell stands: the numbers of its line and of the cell, and a part of the file.
#[derive(Clone, Copy)]
pub struct Place {
    pub line: u32,
    pub cell: u32,
    pub start: usize,
    pub end: usize,
}

// Where the cell stands, or why it is refused: tried in the order 1, 2, 3, 4.
pub fn locate(file: &[u8], section: u32, row: u32, column: u32) -> Result<Place, Refusal>
    ensures { Placed file.now (sought file.now section row column) (number_in result) (answer_or nowhere result) }
{
    if LIMIT < file.len() {
        return Err(Refusal::TooLong);
    }
    let book = directory();
    if !is_section(&book, section) {
        return Err(Refusal::NoSection);
    }
    let Some(on) = row_of(file, section, row) else {
        return Err(Refusal::NoRow);
    };
    let Some(part) = column_of(&file[on.start..on.end], column) else {
        return Err(Refusal::NoCell);
    };
    let cell = column + 1;
    let start = on.start + part.start;
    let end = on.start + part.end;
    Ok(Place {
        line: on.line,
        cell,
        start,
        end,
    })
}

// The plain cell call: shows the very bytes that stand there, where they stand, or says why it is refused.
pub fn cell<'a>(file: &'a [u8], section: u32, row: u32, column: u32) -> Result<&'a [u8], Refusal>
    ensures result_after { given (number_in result) (view_in result) ≡ shown (sought file.now section row column) }
    ensures points { IfOk result (λ view. Points file.entry (sought file.now section row column).start view) }
{
    let place = locate(file, section, row, column)?;
    Ok(&file[place.start..place.end])
}

// The second cell call: shows the cell, or where it is `null` the stand-in that the caller lent.
pub fn cell_or<'a>(
    file: &'a [u8],
    section: u32,
    row: u32,
    column: u32,
    stand_in: &'a [u8],
) -> Result<&'a [u8], Refusal>
    ensures result_after { given (number_in result) (view_in result) ≡ or_else stand_in.now (shown (sought file.now section row column)) }
    ensures points_or { IfOk result (λ view. PointsOr (is (sought file.now section row column).view "null") stand_in.entry file.entry (sought file.now section row column).start view) }
{
    let view = cell(file, section, row, column)?;
    if same_bytes(view, b"null") {
        return Ok(stand_in);
    }
    Ok(view)
}

// The reading call: the cell's line, its number and what it says, or why it is refused.
pub fn reading(file: &[u8], section: u32, row: u32, column: u32) -> Result<Reading, Refusal>
    ensures { told (number_in result) (answer_or unread result) ≡ reading_of (sought file.now section row column) }
{
    let found = locate(file, section, row, column)?;
    let value = read(&file[found.start..found.end]);
    Ok(Reading {
        line: found.line,
        cell: found.cell,
        value,
    })
}
