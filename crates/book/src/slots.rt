// The slots of the keys, one for each name that a key stands for.
ghost use Rattle.std.specs.Prelude.{◌≡◌, ◌≤◌, length};
ghost use Rattle.book_names.specs.Names.{start_of};
ghost use Rattle.book.specs.Book.{key_entries};
ghost use Rattle.book.specs.Text.{book_in, IsBook};

use crate::directory::{number_at, wanted_at};

// The slots of the keys are below this, in every book.
pub const SLOTS: usize = 43279;

// Where the slots of a key's entry begin; past the last entry, where they end.
pub fn start_of(book: &[u8], entry: usize) -> usize
    requires book { IsBook book.now }
    requires in_bounds { entry ≤ length (key_entries (book_in book.now)) }
    ensures { result ≡ start_of (key_entries (book_in book.now)) entry }
{
    let at = wanted_at(book, usize::from(book[1]) + 1);
    number_at(book, at + 2 * entry)
}
