// The links of a table: for each byte the first row that begins with it, and for each row the next one that begins with the same byte; the number past the last row where there is none.
#![tactic(auto)]

ghost use Rattle.std.specs.Prelude.{◌≡◌, ℕ, ◌+◌, ◌/◌, ◌≤◌, ◌<◌, length, get_or, take, drop};
ghost use Rattle.book_names.specs.Links.{Links};

use book_names::{HEADS, NAME, WIDTH};

// Each byte is linked to the number `none`.
fn unlink(book: &mut [u8], at: usize, none: u8)
    requires { at + 256 ≤ length book.old }
    ensures book_len_unchanged { length book.new ≡ length book.old }
    ensures book_unchanged { take at book.new ≡ take at book.old }
    ensures by_index { (b : ℕ) → b < 256 → get_or (drop at book.new) b 0 ≡ none }
{
    book[at..at + HEADS].fill(none);
}

// Writes the links of the table from `at` on, row by row from the last: each goes in front of those after it.
pub fn link(book: &mut [u8], at: usize, table: &[u8])
    requires table_len_bound { length table.now / 54 < 256 }
    requires table_in_bounds { at + 256 + length table.now / 54 ≤ length book.old }
    ensures { Links table.now at book.old book.new }
{
    let rows = table.len() / WIDTH;
    unlink(book, at, rows as u8);
    for row in (0..rows).rev() {
        let head = at + usize::from(table[row * WIDTH + NAME]);
        book[at + HEADS + row] = book[head];
        book[head] = row as u8;
    }
}
