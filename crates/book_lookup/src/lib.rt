// A name looked up in a table of rows.
#![tactic(auto)]

ghost use Rattle.std.specs.Prelude.{◌≡◌, true, false, ◌≤◌, ◌<◌, length, get_or, drop};
ghost use Rattle.text_bytes.specs.Bytes.{SPACE as space};
ghost use Rattle.value_references.specs.Index.{sooner as soonerOf};
ghost use Rattle.book_names.specs.Names.{pieces, fits as fitsIn, lookup_in};
ghost use Rattle.book_names.specs.Steps.{flaw_of, may_fit, may_end, extent as extentFrom, close_at};
ghost use Rattle.book_names.specs.Table.{entries};
ghost use Rattle.book_names.specs.Links.{Linked};
ghost use Rattle.book_names.specs.declared.Match.TheVariants.{Differs};

use book_fits::{byte_of, fits};
use book_names::{HEADS, Known, Match, NAME, PLACE, WIDTH};
use text_bytes::{SPACE, seek};
use value_references::index::{Flaw, digits_end, sooner};

// Whether a pattern whose second byte is q may fit a name that begins with x and y: an index may stand at either, or the pattern may end there.
fn may_fit(q: u8, x: u8, y: u8) -> bool
    ensures { result ≡ may_fit q x y }
{
    q == y || q == b'[' || q == SPACE || x == b'[' || x == SPACE
}

// Whether a pattern may end before `end` in the row where the name's last byte is `last`: a space stands there, and before it that byte, or a place for the index that `]` ends.
fn may_end(row: &[u8], end: usize, last: u8) -> bool
    requires le_end { 3 ≤ end }
    requires end_in_bounds { end < length row.now }
    ensures { result ≡ may_end row.now end last }
{
    row[end] == SPACE && (row[end - 1] == last || (last == b']' && row[end - PLACE] == b'['))
}

// How many bytes `]` has at a place of the name: none where it does not stand there.
fn closing(name: &[u8], at: usize) -> usize
    ensures { result ≡ close_at name.now at }
{
    if byte_of(name, at) == b']' { 1 } else { 0 }
}

// How many bytes the text of the name's form has, where each bracket of digits counts as the `[n]` of a pattern.
fn extent(name: &[u8]) -> usize
    ensures { result ≡ extentFrom false name.now }
{
    let mut at = 0;
    let mut n = 0;
    // Kept: the walk goes from bracket to bracket, where `seek` finds them, so that no range or iterator has its steps.
    loop {
        let bracket = seek(name, at, b'[');
        n += bracket - at;
        if bracket == name.len() {
            return n;
        }
        let end = digits_end(name, bracket + 1);
        let close = closing(name, end);
        n += 1 + 2 * close;
        at = end + close;
    }
}

// Whether the row's pattern cannot fit the name, nor miss it, by where it ends and by its last byte: its text is as long as that of the name's form.
fn cannot_fit(row: &[u8], name: &[u8], extent: usize) -> bool
    requires in_bounds { 54 ≤ length row.now }
    requires extent_value { extent ≡ extentFrom false name.now }
    ensures { result ≡ true → fitsIn (pieces (drop 3 row.now)) name.now 0 0 ≡ Differs }
{
    let n = name.len();
    if n == 0 {
        return false;
    }
    if WIDTH - NAME <= extent {
        return false;
    }
    !may_end(row, NAME + extent, name[n - 1])
}

// How the name fits the row's pattern; it begins with x and y. A row that cannot fit is not read, so that many rows that begin like the name cost little.
fn fits_row(row: &[u8], name: &[u8], extent: usize, x: u8, y: u8) -> Match
    requires in_bounds { 54 ≤ length row.now }
    requires extent_value { extent ≡ extentFrom false name.now }
    requires x_value { x ≡ get_or name.now 0 space }
    requires y_value { y ≡ get_or name.now 1 space }
    ensures { result ≡ fitsIn (pieces (drop 3 row.now)) name.now 0 0 }
{
    if !may_fit(row[NAME + 1], x, y) {
        return Match::Differs;
    }
    if cannot_fit(row, name, extent) {
        return Match::Differs;
    }
    fits(row, NAME, name)
}

// The first flaw that the name has against the rows so far, with the row that it matches so.
fn noted(flaw: Flaw, row: Match) -> Flaw
    ensures { result ≡ soonerOf flaw (flaw_of row) }
{
    match row {
        Match::Misses(z) => sooner(flaw, z),
        Match::Differs | Match::Fits(..) => flaw,
    }
}

// What the table says of the name: the first row whose pattern it fits, else the flaw for which it misses the first that it would fit but for its indices. The links lead past the rows that begin with another byte.
pub fn lookup(table: &[u8], links: &[u8], name: &[u8]) -> Result<Known, Flaw>
    requires { Linked 0 (entries table.now) links.now }
    ensures { result ≡ lookup_in (entries table.now) name.now }
{
    let x = byte_of(name, 0);
    let y = byte_of(name, 1);
    let n = extent(name);
    let rows = table.len() / WIDTH;
    let mut flaw = Flaw::Form;
    let mut entry = usize::from(links[usize::from(x)]);
    // Kept: the links say which row is next, so that no range or iterator has the rows in this order.
    while entry < rows {
        let at = entry * WIDTH;
        let end = at + WIDTH;
        let row = fits_row(&table[at..end], name, n, x, y);
        if let Match::Fits(i, j) = row {
            return Ok(Known {
                entry,
                kind: table[at],
                family: table[at + 1],
                i,
                j,
            });
        }
        flaw = noted(flaw, row);
        entry = usize::from(links[HEADS + entry]);
    }
    Err(flaw)
}
