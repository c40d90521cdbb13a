// Asks the cell calls the questions of a table on standard input, and prints what they give back. A case ends with the byte 30: lines
// 'SECTION ROW COLUMN', a line '.', and then the bytes of the file. For each question: the number, the view, the view with
// the stand-in '-', and the reading with its line and cell.
#![tactic(auto)]

ghost use Rattle.std.specs.Prelude.{◌≤◌, length};

use mztab::cells::{cell, cell_or, reading};
use mztab::records::Reading;
use test_fields::{next_field, short_at};
use test_telling::tell;
use text::lines::{LF, line_at};
use text_bytes::same_bytes;
use value_readings::Value;

const CASE_END: u8 = 30;

fn show(view: &[u8]) {
    io::write_all(1, b" <");
    io::write_all(1, view);
    io::write_all(1, b">");
}

// The reading of a cell: its line, its number and its value; 0, 0 and missing where it is refused.
fn tell_reading(file: &[u8], section: u32, row: u32, column: u32) {
    let unread = Reading {
        line: 0,
        cell: 0,
        value: Value::Missing,
    };
    let record = reading(file, section, row, column).unwrap_or(unread);
    io::write_all(1, b" ");
    io::print_decimal(1, u64::from(record.line));
    io::write_all(1, b" ");
    io::print_decimal(1, u64::from(record.cell));
    io::write_all(1, b" ");
    tell(record.value);
}

// Asks one question of a file.
fn ask(question: &[u8], file: &[u8]) {
    let second = next_field(question, 0);
    let third = next_field(question, second);
    let section = short_at(question, 0);
    let row = short_at(question, second);
    let column = short_at(question, third);
    let view = cell(file, section, row, column);
    let number = view.err().map_or(0, |refusal| refusal.number());
    io::print_decimal(1, u64::from(number));
    show(view.unwrap_or(b""));
    show(cell_or(file, section, row, column, b"-").unwrap_or(b""));
    tell_reading(file, section, row, column);
    io::write_all(1, b"\n");
}

// Where the file of a case begins: after the line '.', or at the end where there is none.
fn file_start(case: &[u8]) -> usize
    ensures { result ≤ length case.now }
{
    let mut at = 0;
    while at < case.len() {
        let line = line_at(case, at);
        let end = line.end;
        let next = line.next;
        if same_bytes(&case[at..end], b".") {
            return next;
        }
        at = next;
    }
    at
}

// The text of a line: without the LF that ends it, and without one CR directly before that.
fn text_of(line: &[u8]) -> &[u8] {
    match line.strip_suffix(b"\n") {
        Some(text) => text.strip_suffix(b"\r").unwrap_or(text),
        None => line,
    }
}

// Asks all questions of a case, in order.
fn run_case(case: &[u8]) {
    let (questions, file) = case.split_at(file_start(case));
    for line in questions.split_inclusive(|b| *b == LF) {
        let question = text_of(line);
        if !same_bytes(question, b".") {
            ask(question, file);
        }
    }
    io::write_all(1, b".\n");
}

// Runs all cases of a table, in order.
fn run_all(table: &[u8]) {
    for part in table.split_inclusive(|b| *b == CASE_END) {
        run_case(part.strip_suffix(&[CASE_END]).unwrap_or(part));
    }
}

fn main() {
    let mut buffer = io::large_buffer();
    let n = io::read_full(0, &mut buffer);
    run_all(&buffer[..n]);
}
