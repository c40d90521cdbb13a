// The sort of a line, by its code.
ghost use Rattle.std.specs.Prelude.{◌≡◌};
ghost use Rattle.book.specs.Text.{book_in, HasDirectory};
ghost use Rattle.rules.specs.Sorts.{code_sort, sort_of};

use book::directory::section_of;
use text::cells::cell_end;
use text_bytes::same_bytes;

// The sort of a line: a header and a row have their section. No rule judges a silent one.
#[derive(Clone, Copy)]
pub enum Sort {
    Silent,
    Unknown,
    Meta,
    Header(u32),
    Row(u32),
}

// What a line code says in the book.
fn code_sort(book: &[u8], code: &[u8]) -> Sort
    requires { HasDirectory book.now }
    ensures { result ≡ code_sort (book_in book.now) code.now }
{
    if same_bytes(code, b"COM") {
        return Sort::Silent;
    }
    if same_bytes(code, b"MTD") {
        return Sort::Meta;
    }
    let row = section_of(book, true, code);
    if 0 < row {
        return Sort::Row(row);
    }
    let header = section_of(book, false, code);
    if 0 < header {
        return Sort::Header(header);
    }
    Sort::Unknown
}

// The sort of a line: an empty one, and one whose cell 1 is COM, are silent.
pub fn sort_of(book: &[u8], line: &[u8]) -> Sort
    requires { HasDirectory book.now }
    ensures { result ≡ sort_of (book_in book.now) line.now }
{
    if line.is_empty() {
        return Sort::Silent;
    }
    let e = cell_end(line, 0);
    code_sort(book, &line[..e])
}
