// The ids that a file declares.
#![tactic(auto)]

ghost use Rattle.std.specs.Prelude.{◌≡◌, ◌≤◌, length};
ghost use Rattle.book.specs.Text.{book_in, IsBook};
ghost use Rattle.book_ids.specs.Ids.{index_after, id_of, key_id, line_id, marked, is_marked};

use book::key;
use text::cells::{count_cells, has_code, nth_cell};
use text_bytes::begins_with;
use value_references::index::{index_in, read_index};
use value_references::words::{word, words};
use value_references::{FAMILIES, INDICES};

// An id: its family, 0 sample, 1 assay, 2 study variable, 3 run, and its index, from 1.
#[derive(Clone, Copy)]
pub struct Id {
    pub family: usize,
    pub index: usize,
}

// The index that stands after the word at the front of the name, 0 for none.
// Kept: the definition `index_after` has 0 for none, as `index_in` has.
fn index_after(word: &[u8], name: &[u8]) -> usize
    ensures { result ≡ index_after word.now name.now }
{
    if begins_with(word, name) {
        let a = word.len();
        return index_in(read_index(&name[a..]));
    }
    0
}

// The id that the name begins with.
pub fn id_of(name: &[u8]) -> Option<Id>
    ensures { result ≡ id_of name.now }
{
    let all = words();
    for f in 0..FAMILIES {
        let i = index_after(word(&all, f), name);
        if i != 0 {
            return Some(Id {
                family: f,
                index: i,
            });
        }
    }
    None
}

// The id that a known key begins with.
pub fn key_id(book: &[u8], name: &[u8]) -> Option<Id>
    requires { IsBook book.now }
    ensures { result ≡ key_id (book_in book.now) name.now }
{
    let id = id_of(name)?;
    match key(book, name) {
        Err(_) => None,
        Ok(_) => Some(id),
    }
}

// The id that the line declares.
pub fn line_id(book: &[u8], line: &[u8]) -> Option<Id>
    requires { IsBook book.now }
    ensures { result ≡ line_id (book_in book.now) line.now }
{
    if !has_code(line, b"MTD") {
        return None;
    }
    let key = nth_cell(line, 1)?;
    if count_cells(line) != 3 {
        return None;
    }
    key_id(book, &line[key.start..key.end])
}

// The flags, with that of the id that the line declares.
pub fn mark_line(flags: &mut [[bool; INDICES]; FAMILIES], book: &[u8], line: &[u8])
    requires { IsBook book.now }
    ensures { flags.new ≡ marked flags.old (line_id (book_in book.now) line.now) }
{
    if let Some(id) = line_id(book, line) {
        flags[id.family][id.index - 1] = true;
    }
}

// Whether any flag or slot is marked, from one up to another.
pub fn any_marked(slots: &[bool], from: usize, to: usize) -> bool
    requires { (from ≤ to) × (to ≤ length slots.now) }
    ensures { result ≡ is_marked slots.now from to }
{
    slots[from..to].contains(&true)
}
