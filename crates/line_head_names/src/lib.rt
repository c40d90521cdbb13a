// The column names of a header, each judged by what the book says of it.
#![tactic(auto)]

ghost use Rattle.std.specs.Prelude.{◌≡◌, ◌+◌, ◌-◌, ◌≤◌, ◌<◌, length, drop, set};
ghost use Rattle.text.specs.Lines.{LIMIT, cells};
ghost use Rattle.book.specs.Text.{book_in, IsBook};
ghost use Rattle.book.specs.Book.{column_of};
ghost use Rattle.scan.specs.Places.{CEILING, NAME_MOST, NAMES_MOST, lent, Puts};
ghost use Rattle.rules.specs.Rules.{kind_in};
ghost use Rattle.scan.specs.Machine.{ids_of, each_cell, name_cell, head_cell, KindsOf, Within, known_breaks};
ghost use Rattle.line_head_stamps.specs.Stamps.{ROOM as room};

use book::{column, is_opt};
use book_facts::Asking;
use book_names::Known;
use line_head_found::{is_strange, kind_in, name_rule};
use line_head_stamps::came_before;
use scan::places::{Tag, put_again, put_if, put_rule};
use scan::state::MOST_CELLS;
use text::cells::cell_end;
use value_references::index::Flaw;
use value_references::{FAMILIES, INDICES};

// The names of a header: its line, its section, what decides which of them are asked, and where the first begins.
#[derive(Clone, Copy)]
pub struct Names {
    pub tag: Tag,
    pub section: u32,
    pub asking: Asking,
    pub from: usize,
}

// A name among them: its cell, the cell where it stands first if it comes again (0 for none), and whether any `opt_` name came before.
// Kept: 0 for none, as the record of a break has it that C reads.
#[derive(Clone, Copy)]
struct Naming {
    tag: Tag,
    cell: u32,
    first: u32,
    opt: bool,
}

// A name: the book has none like it (12), or it came before (13).
fn name_known(places: &mut [u32], count: u32, found: Result<Known, Flaw>, at: Naming) -> u32
    requires { count + 3 ≤ CEILING }
    ensures { Puts (known_breaks at.first found at.tag.control at.tag.line at.cell) 3 (lent places.old count) (lent places.new result) }
{
    let strange = is_strange(found);
    let c = at.cell;
    let k1 = put_if(places, count, at.tag.control == c, 1, at.tag.line, c);
    let k2 = put_if(places, k1, strange, 12, at.tag.line, c);
    put_again(places, k2, 13, at.tag.line, c, at.first)
}

// The same, or it is no `opt_` name after one (14), or names an undeclared id (15), or has a bad index (23, 24).
fn name_cell(
    places: &mut [u32],
    count: u32,
    name: &[u8],
    found: Result<Known, Flaw>,
    at: Naming,
    flags: &[[bool; INDICES]; FAMILIES],
) -> u32
    requires count_bound { count + NAME_MOST ≤ CEILING }
    requires within { Within found }
    ensures { Puts (name_cell at.first at.opt (ids_of flags.now) found at.tag.control at.tag.line at.cell name.now) NAME_MOST (lent places.old count) (lent places.new result) }
{
    let late = !is_opt(name) & at.opt;
    let rule = name_rule(flags, found);
    let k1 = name_known(places, count, found, at);
    let k2 = put_if(places, k1, late, 14, at.tag.line, at.cell);
    put_rule(places, k2, rule, at.tag.line, at.cell, 0)
}

// A name of the section, looked up once: its breaks are put, and its kind is kept at the place before its cell's number.
fn head_cell(
    places: &mut [u32],
    count: u32,
    book: &[u8],
    name: &[u8],
    section: u32,
    at: Naming,
    flags: &[[bool; INDICES]; FAMILIES],
    kinds: &mut [u8; MOST_CELLS],
) -> u32
    requires count_bound { count + NAME_MOST ≤ CEILING }
    requires book { IsBook book.now }
    requires cell_nonzero { (0 < at.cell) × (at.cell ≤ 256) }
    requires kinds_len { length kinds.old ≡ 256 }
    ensures puts { Puts (name_cell at.first at.opt (ids_of flags.now) (column_of (book_in book.now) section name.now) at.tag.control at.tag.line at.cell name.now) NAME_MOST (lent places.old count) (lent places.new result) }
    ensures kinds_after { kinds.new ≡ set kinds.old (at.cell - 1) (kind_in (column_of (book_in book.now) section name.now)) }
{
    let found = column(book, section as usize, name);
    let c = at.cell;
    kinds[(c - 1) as usize] = kind_in(found);
    name_cell(places, count, name, found, at, flags)
}

// The column names, from cell 2 on: their breaks are put, and their kinds kept for the rows, cell c's at place c - 1, and there are no more
// names than kinds.
pub fn head_cells(
    places: &mut [u32],
    count: u32,
    book: &[u8],
    line: &[u8],
    names: Names,
    flags: &[[bool; INDICES]; FAMILIES],
    kinds: &mut [u8; MOST_CELLS],
    stamps: &mut [u32],
) -> u32
    requires count_bound { count + NAMES_MOST ≤ CEILING }
    requires book { IsBook book.now }
    requires from_in_bounds { (names.from ≤ length line.now) × (length line.now ≤ LIMIT) }
    requires line_len_bound { length (cells (drop names.from line.now)) ≤ 255 }
    requires kinds_len { length kinds.old ≡ 256 }
    requires stamps_len { length stamps.old ≡ room }
    ensures puts { Puts (each_cell (head_cell (book_in book.now) names.section (cells (drop names.from line.now)) (ids_of flags.now) names.tag.control names.tag.line) 2 (cells (drop names.from line.now))) NAMES_MOST (lent places.old count) (lent places.new result) }
    ensures kinds_of { KindsOf (book_in book.now) names.section (cells (drop names.from line.now)) kinds.new }
    ensures kinds_len_2 { length kinds.new ≡ 256 }
    ensures stamps_len_2 { length stamps.new ≡ room }
{
    let tag = names.tag;
    let mut at = names.from;
    let mut k = count;
    let mut opt = false;
    for c in 2..MOST_CELLS + 1 {
        let e = cell_end(line, at);
        let first = came_before(stamps, tag.line, line, c - 2, at, e);
        let naming = Naming {
            tag,
            cell: c as u32,
            first,
            opt,
        };
        k = head_cell(
            places,
            k,
            book,
            &line[at..e],
            names.section,
            naming,
            flags,
            kinds,
        );
        opt |= is_opt(&line[at..e]);
        if e == line.len() {
            return k;
        }
        at = e + 1;
    }
    k
}
