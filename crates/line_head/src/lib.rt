// Judging a header: rules 1 and 9 to 16, put into the lent places.
#![tactic(auto)]

ghost use Rattle.std.specs.Prelude.{◌≡◌, true, ◌+◌, ◌≤◌, length, drop};
ghost use Rattle.text.specs.Lines.{LIMIT, cells};
ghost use Rattle.book.specs.Book.{is_section};
ghost use Rattle.book.specs.Text.{book_in, IsBook};
ghost use Rattle.book_facts.specs.Asked.{asked_by};
ghost use Rattle.scan.specs.Places.{CEILING, HEADED_MOST, LINE_MOST, lent, Puts};
ghost use Rattle.scan.specs.Machine.{ids_of, head_breaks, head_first, name_breaks};
ghost use Rattle.line_head_stamps.specs.Stamps.{ROOM as room};
ghost use Rattle.line_head.specs.Heads.{Kept, KeepsKinds};

use book_facts::Asking;
use line_head_names::{Names, head_cells};
use line_head_required::lacks;
use scan::places::{Tag, put_again, put_if};
use scan::state::MOST_CELLS;
use text::cells::{cell_end, count_cells};
use value_references::{FAMILIES, INDICES};

// A header, beside its bytes: its line, its section, what decides which columns are asked, the line of the first header of its section above (0 for none), and
// whether one of a later section stands above.
// Kept: 0 for none, as the record of a break has it that C reads.
#[derive(Clone, Copy)]
pub struct Head {
    pub tag: Tag,
    pub section: u32,
    pub asking: Asking,
    pub first: u32,
    pub later: bool,
}

// Cell 1 of a header: a header of its section (9), or of a later one (10), stands above, or it has over 256 cells (11).
fn head_code(places: &mut [u32], count: u32, head: Head, wide: bool) -> u32
    requires { count + 4 ≤ CEILING }
    ensures { Puts (head_first head.first head.later wide head.tag.control head.tag.line) 4 (lent places.old count) (lent places.new result) }
{
    let k1 = put_if(places, count, head.tag.control == 1, 1, head.tag.line, 1);
    let k2 = put_again(places, k1, 9, head.tag.line, 1, head.first);
    let k3 = put_if(places, k2, head.later, 10, head.tag.line, 1);
    put_if(places, k3, wide, 11, head.tag.line, 1)
}

// The names of a header: a required one is absent (16), and each is judged.
fn head_names(
    places: &mut [u32],
    count: u32,
    book: &[u8],
    line: &[u8],
    names: Names,
    flags: &[[bool; INDICES]; FAMILIES],
    kinds: &mut [u8; MOST_CELLS],
    stamps: &mut [u32],
) -> u32
    requires count_bound { count + HEADED_MOST ≤ CEILING }
    requires book { IsBook book.now }
    requires section_value { is_section (book_in book.now) names.section ≡ true }
    requires from_in_bounds { (names.from ≤ length line.now) × (length line.now ≤ LIMIT) }
    requires line_len_bound { length (cells (drop names.from line.now)) ≤ 255 }
    requires kinds_len { length kinds.old ≡ 256 }
    requires stamps_len { length stamps.old ≡ room }
    ensures puts { Puts (name_breaks (book_in book.now) (asked_by names.asking) names.section (ids_of flags.now) names.tag.control names.tag.line (cells (drop names.from line.now))) HEADED_MOST (lent places.old count) (lent places.new result) }
    ensures kept { Kept (book_in book.now) names.section (cells (drop names.from line.now)) kinds.new stamps.new }
{
    let lacking = lacks(book, line, names.from, names.section, names.asking);
    let k = put_if(places, count, lacking, 16, names.tag.line, 1);
    head_cells(places, k, book, line, names, flags, kinds, stamps)
}

// The breaks of a header, put after the first `count`; the answer is how many there are then. The kinds of its columns are kept, cell c's at place c - 1. What the
// stamps hold is of no account.
pub fn judge_head(
    places: &mut [u32],
    count: u32,
    book: &[u8],
    line: &[u8],
    head: Head,
    flags: &[[bool; INDICES]; FAMILIES],
    kinds: &mut [u8; MOST_CELLS],
    stamps: &mut [u32],
) -> u32
    requires count_bound { count + LINE_MOST ≤ CEILING }
    requires book { IsBook book.now }
    requires section_value { is_section (book_in book.now) head.section ≡ true }
    requires kinds_len { length kinds.old ≡ 256 }
    requires stamps_len { length stamps.old ≡ room }
    requires line_len_bound { length line.now ≤ LIMIT }
    ensures puts { Puts (head_breaks (book_in book.now) (asked_by head.asking) head.section head.first head.later (ids_of flags.now) head.tag.control head.tag.line (cells line.now)) LINE_MOST (lent places.old count) (lent places.new result) }
    ensures keeps_kinds { KeepsKinds (book_in book.now) head.section line.now kinds.new stamps.new }
{
    let wide = MOST_CELLS < count_cells(line);
    let tag = head.tag;
    let k = head_code(places, count, head, wide);
    if wide {
        return put_if(places, k, 1 < tag.control, 1, tag.line, tag.control);
    }
    let e = cell_end(line, 0);
    if e == line.len() {
        return put_if(places, k, true, 16, tag.line, 1);
    }
    let names = Names {
        tag,
        section: head.section,
        asking: head.asking,
        from: e + 1,
    };
    head_names(places, k, book, line, names, flags, kinds, stamps)
}
