// Judging a metadata line: rules 1, 3 to 8, 23 and 24, put into the lent places.
#![tactic(auto)]

ghost use Rattle.std.specs.Prelude.{◌≡◌, true, [], ◌+◌, ◌≤◌, length, get_or, drop};
ghost use Rattle.text.specs.Lines.{cells, is_meta};
ghost use Rattle.book.specs.Book.{key_of};
ghost use Rattle.book_ids.specs.Ids.{Flags};
ghost use Rattle.book.specs.Text.{book_in, IsBook};
ghost use Rattle.scan.specs.Places.{CEILING, LINE_MOST, lent, Puts};
ghost use Rattle.scan.specs.Machine.{control_at, rule_at, each_cell, meta_cell, meta_breaks, FIRSTS, ids_of};
ghost use Rattle.line_meta_keys.specs.Keys.{slotted};
ghost use Rattle.line_meta.specs.Metas.{KeepsKeys};

use book::key;
use line_meta_keys::{judge_key, mark};
use scan::places::{Tag, put_if, put_rule};
use text::cells::{cell_end, count_cells};
use value_references::{FAMILIES, INDICES};

// The cells of a metadata line whose key and value are judged, and which they are.
const CELLS: usize = 3;

const KEY: u32 = 2;

const VALUE: u32 = 3;

// A key or its value: the cell has the line's first control byte (1), and it breaks a rule, 0 for none; of a key that comes again, the line where it stands first.
fn put_field(places: &mut [u32], count: u32, tag: Tag, cell: u32, rule: u32, first: u32) -> u32
    requires { count + 2 ≤ CEILING }
    ensures { Puts (λ rest. control_at tag.control tag.line cell (rule_at rule tag.line cell first rest)) 2 (lent places.old count) (lent places.new result) }
{
    let k = put_if(places, count, tag.control == cell, 1, tag.line, cell);
    put_rule(places, k, rule, tag.line, cell, first)
}

// The key and the value of a metadata line of three cells.
fn judge_three(
    places: &mut [u32],
    count: u32,
    book: &[u8],
    line: &[u8],
    tag: Tag,
    flags: &[[bool; INDICES]; FAMILIES],
    slots: &mut [u32],
) -> u32
    requires book { IsBook book.now }
    requires flags { Flags flags.now }
    requires slots_len { length slots.old ≡ FIRSTS }
    requires line_len { length (cells line.now) ≡ 3 }
    requires count_bound { count + 4 ≤ CEILING }
    ensures puts { Puts (each_cell (meta_cell (book_in book.now) slots.old (ids_of flags.now) (get_or (cells line.now) 1 []) (get_or (cells line.now) 2 []) tag.control tag.line) 2 (drop 1 (cells line.now))) 4 (lent places.old count) (lent places.new result) }
    ensures slots_after { slots.new ≡ slotted (book_in book.now) slots.old (key_of (book_in book.now) (get_or (cells line.now) 1 [])) tag.line }
{
    let e = cell_end(line, 0);
    let a = e + 1;
    let f = cell_end(line, a);
    let b = f + 1;
    let found = key(book, &line[a..f]);
    let judged = judge_key(book, found, &line[a..f], &line[b..], flags, slots);
    mark(slots, book, found, tag.line);
    let k = put_field(places, count, tag, KEY, judged.key, judged.first);
    put_field(places, k, tag, VALUE, judged.value, 0)
}

// The breaks of a metadata line, put after the first `count`; the answer is how many there are then. `table` says whether a header or row stands above;
// `flags` are the ids that the file declares; `slots` have the first lines of the keys that came before, and of the line's own afterwards.
pub fn judge_meta(
    places: &mut [u32],
    count: u32,
    book: &[u8],
    line: &[u8],
    tag: Tag,
    table: bool,
    flags: &[[bool; INDICES]; FAMILIES],
    slots: &mut [u32],
) -> u32
    requires book { IsBook book.now }
    requires flags { Flags flags.now }
    requires slots_len { length slots.old ≡ FIRSTS }
    requires line_value { is_meta line.now ≡ true }
    requires count_bound { count + LINE_MOST ≤ CEILING }
    ensures puts { Puts (meta_breaks (book_in book.now) table slots.old (ids_of flags.now) tag.control tag.line (cells line.now)) LINE_MOST (lent places.old count) (lent places.new result) }
    ensures keeps_keys { KeepsKeys (book_in book.now) line.now tag.line slots.old slots.new }
{
    let n = count_cells(line);
    let k1 = put_if(places, count, tag.control == 1, 1, tag.line, 1);
    let k2 = put_if(places, k1, n != CELLS, 3, tag.line, 1);
    let k3 = put_if(places, k2, table, 4, tag.line, 1);
    if n == CELLS {
        return judge_three(places, k3, book, line, tag, flags, slots);
    }
    put_if(places, k3, 1 < tag.control, 1, tag.line, tag.control)
}
