// Shows what the book says of names: standard input has a name on each line that LF ends. For each it prints six fields: what the name is as a key and as
// a column of the four sections (the letters of its kind and family, and its two indices), and the id that it declares as a key; `-` where it is none.
#![tactic(auto)]

ghost use Rattle.std.specs.Prelude.{◌≤◌, length};
ghost use Rattle.book.specs.Text.{IsBook};

use book::{column, key};
use book_ids::{Id, key_id};
use book_names::Known;
use text::lines::LF;
use value_references::index::Flaw;

// One byte more, where there is room.
fn push(out: &mut [u8], at: usize, b: u8) -> usize
    ensures { result ≤ length out.new }
{
    if at < out.len() {
        out[at] = b;
        return at + 1;
    }
    out.len()
}

// An index, which has one digit or two.
fn push_index(out: &mut [u8], at: usize, i: usize) -> usize
    ensures { result ≤ length out.new }
{
    let ones = digit(i);
    if i < 10 {
        return push(out, at, ones);
    }
    let mid = push(out, at, digit(i / 10));
    push(out, mid, ones)
}

// The last digit of a number.
fn digit(i: usize) -> u8 {
    48 + (i % 10) as u8
}

// A space and an index.
fn push_spaced(out: &mut [u8], at: usize, i: usize) -> usize
    ensures { result ≤ length out.new }
{
    let a = push(out, at, b' ');
    push_index(out, a, i)
}

// What a table says of a name.
fn push_found(out: &mut [u8], at: usize, found: Result<Known, Flaw>) -> usize
    ensures { result ≤ length out.new }
{
    match found {
        Err(_) => push(out, at, b'-'),
        Ok(known) => {
            let a = push(out, at, known.kind);
            let b = push(out, a, known.family);
            let c = push_spaced(out, b, known.i);
            push_spaced(out, c, known.j)
        }
    }
}

// The letter of a family.
fn letter(family: usize) -> u8 {
    match family {
        0 => b'S',
        1 => b'A',
        2 => b'V',
        _ => b'R',
    }
}

// The id that a key declares.
fn push_id(out: &mut [u8], at: usize, id: Option<Id>) -> usize
    ensures { result ≤ length out.new }
{
    match id {
        None => push(out, at, b'-'),
        Some(id) => {
            let a = push(out, at, letter(id.family));
            push_spaced(out, a, id.index)
        }
    }
}

// What stands between two fields.
fn push_mark(out: &mut [u8], at: usize) -> usize
    ensures { result ≤ length out.new }
{
    let a = push(out, at, b' ');
    let b = push(out, a, b';');
    push(out, b, b' ')
}

// What a section says of a name, after the mark.
fn push_column(out: &mut [u8], at: usize, book: &[u8], section: usize, name: &[u8]) -> usize
    requires { IsBook book.now }
    ensures { result ≤ length out.new }
{
    let a = push_mark(out, at);
    push_found(out, a, column(book, section, name))
}

// What each of the four sections says of a name.
fn push_columns(out: &mut [u8], at: usize, book: &[u8], name: &[u8]) -> usize
    requires { IsBook book.now }
    ensures { result ≤ length out.new }
{
    let a = push_column(out, at, book, 1, name);
    let b = push_column(out, a, book, 2, name);
    let c = push_column(out, b, book, 3, name);
    push_column(out, c, book, 4, name)
}

// The six fields of a name, and LF.
fn push_fields(out: &mut [u8], book: &[u8], name: &[u8]) -> usize
    requires { IsBook book.now }
    ensures { result ≤ length out.new }
{
    let id = key_id(book, name);
    let a = push_found(out, 0, key(book, name));
    let b = push_columns(out, a, book, name);
    let c = push_mark(out, b);
    let d = push_id(out, c, id);
    push(out, d, LF)
}

// The line of a name, made in a lent place.
fn show(out: &mut [u8], book: &[u8], name: &[u8])
    requires { IsBook book.now }
{
    let n = push_fields(out, book, name);
    io::write_all(1, &out[..n]);
}

// Each line that LF ends.
fn run(out: &mut [u8], book: &[u8], names: &[u8])
    requires { IsBook book.now }
{
    for line in names.split_inclusive(|b| *b == LF) {
        if let Some(name) = line.strip_suffix(&[LF]) {
            show(out, book, name);
        }
    }
}

fn main() {
    let mut space = [0u8; 262144];
    let n = io::read_full(0, &mut space);
    let book = book_text::book();
    let mut out = [0u8; 128];
    run(&mut out, &book, &space[..n]);
}
