// The directory at the front of a book's text: the sections with their line codes, and where each table stands.
ghost use Rattle.std.specs.Prelude.{◌≡◌, true, ◌+◌, ◌*◌, ◌<◌, length};
ghost use Rattle.book.specs.Book.{is_section, code_for, section_by};
ghost use Rattle.book.specs.Text.{code_at, number_at, rows_at, wanted_at, links_at, book_in, HasDirectory};

use text_bytes::same_bytes;

// Where the entry of the first section begins, and how many bytes each has: two line codes and three places.
pub const CODES: usize = 14;

pub const STEP: usize = 12;

// The bytes of a line code.
pub const CODE: usize = 3;

// A number that stands in two bytes, the lower first.
pub fn number_at(text: &[u8], i: usize) -> usize
    requires { i + 1 < length text.now }
    ensures { result ≡ number_at text.now i }
{
    usize::from(u16::from_le_bytes([text[i], text[i + 1]]))
}

// Where the rows of table k begin.
pub fn rows_at(text: &[u8], k: usize) -> usize
    requires { 9 + 12 * k < length text.now }
    ensures { result ≡ rows_at text.now k }
{
    number_at(text, 8 + STEP * k)
}

// Where the required columns of table k begin.
pub fn wanted_at(text: &[u8], k: usize) -> usize
    requires { 11 + 12 * k < length text.now }
    ensures { result ≡ wanted_at text.now k }
{
    number_at(text, 10 + STEP * k)
}

// Where the links of table k begin.
pub fn links_at(text: &[u8], k: usize) -> usize
    requires { 13 + 12 * k < length text.now }
    ensures { result ≡ links_at text.now k }
{
    number_at(text, 12 + STEP * k)
}

// Whether a number is that of a section.
pub fn is_section(text: &[u8], section: u32) -> bool
    requires { HasDirectory text.now }
    ensures { result ≡ is_section (book_in text.now) section }
{
    let first = u32::from(text[0]);
    let count = u32::from(text[1]);
    if section < first {
        return false;
    }
    section < first + count
}

// Where the line code of a section's rows, or of its headers, stands in an entry of the directory.
fn code_place(row: bool) -> usize
    ensures { result ≡ code_at row 0 }
{
    if row { CODES + CODE } else { CODES }
}

// The line code that a row of a section has, row 0 being its header.
pub fn code_of<'a>(text: &'a [u8], section: u32, row: u32) -> &'a [u8]
    requires has_directory { HasDirectory text.now }
    requires section_value { is_section (book_in text.now) section ≡ true }
    ensures { result.now ≡ code_for (book_in text.now) section row }
{
    let j = section as usize - usize::from(text[0]);
    let at = code_place(row != 0) + STEP * j;
    let end = at + CODE;
    &text[at..end]
}

// The section whose rows, or whose headers, have the line code; 0 where there is none.
pub fn section_of(text: &[u8], row: bool, code: &[u8]) -> u32
    requires { HasDirectory text.now }
    ensures { result ≡ section_by (book_in text.now) row code.now }
{
    let first = u32::from(text[0]);
    let count = u32::from(text[1]);
    let from = code_place(row);
    for j in 0..count {
        let at = from + STEP * (j as usize);
        let end = at + CODE;
        if same_bytes(code, &text[at..end]) {
            return first + j;
        }
    }
    0
}
