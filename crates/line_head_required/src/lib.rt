// The names of a header: whether a required one is absent.
#![tactic(auto)]

ghost use Rattle.std.specs.Prelude.{◌≡◌, true, not, ◌≤◌, length, take, drop};
ghost use Rattle.text_bytes.specs.Bytes.{any, all, same};
ghost use Rattle.text.specs.Lines.{cells};
ghost use Rattle.book.specs.Book.{is_section};
ghost use Rattle.book.specs.Text.{book_in, IsBook};
ghost use Rattle.book_facts.specs.Asked.{asked_by};
ghost use Rattle.rules.specs.Rules.{has_column, lacks_column};
ghost use Rattle.line_head_required.specs.Wanted.{is_line};

use book::directory::wanted_at;
use book_facts::{Asking, is_asked};
use text::cells::cell_end;
use text_bytes::same_bytes;

// A header of 256 cells has so many names.
const NAMES: usize = 255;

// In the line of a required column its name stands behind a letter and a space.
const NAME: usize = 2;

// Whether the name is one of the first `count` cells from `from` on.
fn named_before(line: &[u8], from: usize, count: usize, name: &[u8]) -> bool
    requires { from ≤ length line.now }
    ensures { result ≡ any (same name.now) (take count (cells (drop from line.now))) }
{
    let mut at = from;
    for _ in 0..count {
        let e = cell_end(line, at);
        if same_bytes(name, &line[at..e]) {
            return true;
        }
        if e == line.len() {
            return false;
        }
        at = e + 1;
    }
    false
}

// Whether a wanted column, by its line, is asked and none of the cells from `from` on.
fn lacks_one(line: &[u8], from: usize, wanted: &[u8], asking: Asking) -> bool
    requires from_in_bounds { from ≤ length line.now }
    requires in_bounds { 2 ≤ length wanted.now }
    ensures { result ≡ not (has_column (asked_by asking) (take 255 (cells (drop from line.now))) wanted.now) }
{
    if !is_asked(wanted[0], asking) {
        return false;
    }
    !named_before(line, from, NAMES, &wanted[NAME..])
}

// Whether one of the wanted columns, a line each with tabs between them, is asked and none of the cells from `from` on.
// Kept: the loop goes from cell to cell by where each ends and counts nothing, so that a range is no plainer.
fn lacks_any(line: &[u8], from: usize, wanted: &[u8], asking: Asking) -> bool
    requires from_in_bounds { from ≤ length line.now }
    requires wanted_value { all is_line (cells wanted.now) ≡ true }
    ensures { result ≡ not (all (has_column (asked_by asking) (take 255 (cells (drop from line.now)))) (cells wanted.now)) }
{
    let mut at = 0;
    loop {
        let e = cell_end(wanted, at);
        if lacks_one(line, from, &wanted[at..e], asking) {
            return true;
        }
        if e == wanted.len() {
            return false;
        }
        at = e + 1;
    }
}

// Whether a required column of the section is asked and absent from the names (16), the first of which begins at `from`.
pub fn lacks(book: &[u8], line: &[u8], from: usize, section: u32, asking: Asking) -> bool
    requires book { IsBook book.now }
    requires section_value { is_section (book_in book.now) section ≡ true }
    requires from_in_bounds { from ≤ length line.now }
    requires line_len_bound { length (cells (drop from line.now)) ≤ 255 }
    ensures { result ≡ lacks_column (book_in book.now) (asked_by asking) section (cells (drop from line.now)) }
{
    let k = section as usize - usize::from(book[0]) + 1;
    let at = wanted_at(book, k);
    let end = wanted_at(book, k + 1);
    lacks_any(line, from, &book[at..end], asking)
}
