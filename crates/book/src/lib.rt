// The rule book: the paper's tables of the names that are known, with their kinds and the ids that they name, lent to the look-ups as one text of rows and links.
#![tactic(auto)]

pub mod demands;
pub mod directory;
pub mod slots;

ghost use Rattle.std.specs.Prelude.{◌≡◌, ◌+◌, ◌*◌, ◌<◌, length};
ghost use Rattle.book_names.specs.Names.{lookup_in};
ghost use Rattle.book_names.specs.Table.{entries};
ghost use Rattle.book.specs.Keys.{is_colunit};
ghost use Rattle.book.specs.Book.{key_of, is_opt, column_entries, column_of};
ghost use Rattle.book.specs.Text.{rows_of, IsTable, book_in, IsBook};

use crate::directory::{links_at, rows_at};
use book_lookup::lookup;
use book_names::Known;
use text_bytes::begins_with;
use value_references::index::Flaw;

// The numbers of sections are below this, in every book.
pub const SECTIONS: usize = 5;

// The bytes of the shortest columns.
const SHORTEST: usize = 3;

// The entry number of an `opt_` column.
const OPT: usize = 255;

// Whether the name begins `opt_`.
pub fn is_opt(name: &[u8]) -> bool
    ensures { result ≡ is_opt name.now }
{
    begins_with(b"opt_", name)
}

// Whether the key is a `colunit` one.
pub fn is_colunit(name: &[u8]) -> bool
    ensures { result ≡ is_colunit name.now }
{
    begins_with(b"colunit-", name)
}

// What table k of the book says of the name.
fn search(book: &[u8], k: usize, name: &[u8]) -> Result<Known, Flaw>
    requires table { IsTable book.now k }
    requires k_in_bounds { 25 + 12 * k < length book.now }
    ensures { result ≡ lookup_in (entries (rows_of book.now k)) name.now }
{
    let from = rows_at(book, k);
    let to = rows_at(book, k + 1);
    let links = links_at(book, k);
    let end = links_at(book, k + 1);
    lookup(&book[from..to], &book[links..end], name)
}

// The key of a metadata line.
pub fn key(book: &[u8], name: &[u8]) -> Result<Known, Flaw>
    requires { IsBook book.now }
    ensures { result ≡ key_of (book_in book.now) name.now }
{
    search(book, 0, name)
}

// The name in the table of a section's columns, unknown where there is no such section.
fn find_column(book: &[u8], section: usize, name: &[u8]) -> Result<Known, Flaw>
    requires { IsBook book.now }
    ensures { result ≡ lookup_in (column_entries (book_in book.now) section) name.now }
{
    let first = usize::from(book[0]);
    if section < first {
        return Err(Flaw::Form);
    }
    let k = section - first;
    if usize::from(book[1]) <= k {
        return Err(Flaw::Form);
    }
    search(book, k + 1, name)
}

// A column of a section. A name that begins `opt_` and has a byte more is text in every section; no column has fewer than three bytes, so that many short names cost little.
pub fn column(book: &[u8], section: usize, name: &[u8]) -> Result<Known, Flaw>
    requires { IsBook book.now }
    ensures { result ≡ column_of (book_in book.now) section name.now }
{
    if name.len() < SHORTEST {
        return Err(Flaw::Form);
    }
    if is_opt(name) {
        if name.len() <= 4 {
            return Err(Flaw::Form);
        }
        return Ok(Known {
            entry: OPT,
            kind: b'T',
            family: b'-',
            i: 0,
            j: 0,
        });
    }
    find_column(book, section, name)
}
