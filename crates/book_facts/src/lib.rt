// What the first pass finds of a file: the ids that it declares, its mode, its type and its version line.
#![tactic(auto)]

ghost use Rattle.std.specs.Prelude.{◌≡◌, true, false, cond, ◌&&◌, ◌≤◌, length, get_or, replicate};
ghost use Rattle.text_bytes.specs.Bytes.{same};
ghost use Rattle.text.specs.Lines.{LIMIT, is_meta, lines};
ghost use Rattle.book.specs.Text.{book_in, IsBook};
ghost use Rattle.book.specs.Letters.{NONE};
ghost use Rattle.book_kinds.specs.Kinds.{of_kind};
ghost use Rattle.book_ids.specs.Ids.{Flags, line_id, marked, Declared};
ghost use Rattle.book_facts.specs.Facts.{noted, noted_field, FactsOf};
ghost use Rattle.book_facts.specs.Asked.{asks, asking_by};

use book_ids::{any_marked, mark_line};
use book_kinds::of_kind;
use text::cells::{count_cells, has_code, nth_cell};
use text::lines::{line_at, next_opening};
use text_bytes::{begins_with, same_bytes};
use value_references::{FAMILIES, INDICES};

// The first valid mode, C or S, the first valid type, I or Q, and the number of the first version line; 0 where there is none.
// Kept: `FactsOf` says what the fields are by `mode_of`, `type_of` and `version_of`, which have 0 for none.
#[derive(Clone, Copy)]
pub struct Facts {
    pub mode: u8,
    pub typed: u8,
    pub version: u32,
}

// What decides whether something is asked of a file: the letters of its mode and type, 0 for none, and whether it declares an assay.
// Kept: the definitions `asks` and `AskingOf` have 0 for none.
#[derive(Clone, Copy)]
pub struct Asking {
    pub mode: u8,
    pub typed: u8,
    pub assay: bool,
}

// The family of assays.
const ASSAYS: usize = 1;

// The first byte of a metadata line.
const FIRST: u8 = b'M';

// The first of two letters or of two numbers of lines, of which one stands for none.
fn earlier<T: Copy + PartialEq>(a: T, b: T, none: T) -> T
    ensures { result ≡ cond (T.eq a none) b a }
{
    if a == none { b } else { a }
}

// The first letter of a value of the kind, where the key is the one that is sought; 0 where it is not.
fn letter_in(kind: u8, sought: &[u8], key: &[u8], value: &[u8]) -> u8
    ensures { result ≡ cond (same key.now sought.now && of_kind kind NONE value.now) (get_or value.now 0 0) 0 }
{
    if !(same_bytes(key, sought) && of_kind(kind, b'-', value)) {
        return 0;
    }
    value.first().copied().unwrap_or(0)
}

// The number of a line with the key that is sought; 0 where it is not.
fn line_with(sought: &[u8], key: &[u8], n: u32) -> u32
    ensures { result ≡ cond (same key.now sought.now) n 0 }
{
    if same_bytes(key, sought) { n } else { 0 }
}

// The facts, with what the field of line n says where nothing was known before.
fn note_field(facts: Facts, key: &[u8], value: &[u8], n: u32) -> Facts
    ensures { result ≡ noted_field facts n key.now value.now }
{
    let mode = letter_in(b'm', b"mzTab-mode", key, value);
    let typed = letter_in(b't', b"mzTab-type", key, value);
    let version = line_with(b"mzTab-version", key, n);
    Facts {
        mode: earlier(facts.mode, mode, 0),
        typed: earlier(facts.typed, typed, 0),
        version: earlier(facts.version, version, 0),
    }
}

// The facts, with what the metadata line n says. Few keys begin like those that are sought, and only these are looked at closer.
fn note_line(facts: Facts, line: &[u8], n: u32) -> Facts
    requires { is_meta line.now ≡ true }
    ensures { result ≡ noted facts n line.now }
{
    let Some(key) = nth_cell(line, 1) else {
        return facts;
    };
    if !begins_with(b"mzTab-", &line[key.start..key.end]) {
        return facts;
    }
    if count_cells(line) != 3 {
        return facts;
    }
    let Some(value) = nth_cell(line, 2) else {
        return facts;
    };
    note_field(
        facts,
        &line[key.start..key.end],
        &line[value.start..value.end],
        n,
    )
}

// What line n says is taken up in the flags and the facts.
fn survey_line(
    flags: &mut [[bool; INDICES]; FAMILIES],
    book: &[u8],
    facts: Facts,
    line: &[u8],
    n: u32,
) -> Facts
    requires { IsBook book.now }
    ensures flags_after { flags.new ≡ marked flags.old (line_id (book_in book.now) line.now) }
    ensures value { result ≡ noted facts n line.now }
{
    if !has_code(line, b"MTD") {
        return facts;
    }
    mark_line(flags, book, line);
    note_line(facts, line, n)
}

// One pass over all lines: the flags, all false before, say which ids the file declares, index i of a family at place i - 1, and the answer is its facts. Few
// lines begin with the byte of metadata lines, and only these are looked at; the others are passed over.
pub fn survey(flags: &mut [[bool; INDICES]; FAMILIES], book: &[u8], file: &[u8]) -> Facts
    requires book { IsBook book.now }
    requires flags_value { flags.old ≡ replicate 4 (replicate 64 false) }
    requires file_len_bound { length file.now ≤ LIMIT }
    ensures declared { Declared (book_in book.now) flags.new file.now }
    ensures facts_of { FactsOf (lines file.now) result }
{
    let mut facts = Facts {
        mode: 0,
        typed: 0,
        version: 0,
    };
    let mut at = 0;
    let mut n: u32 = 0;
    // Kept: a turn takes a line, or passes all lines up to the next metadata line at once, so that no range has its places.
    while at < file.len() {
        if file[at] == FIRST {
            let line = line_at(file, at);
            let start = at;
            let end = line.end;
            n += 1;
            at = line.next;
            facts = survey_line(flags, book, facts, &file[start..end], n);
        } else {
            let next = next_opening(file, at, FIRST);
            n += next.lines;
            at = next.at;
        }
    }
    facts
}

// What decides, from the facts of a file and the flags of the ids that it declares.
pub fn asking_of(facts: Facts, flags: &[[bool; INDICES]; FAMILIES]) -> Asking
    requires { Flags flags.now }
    ensures { result ≡ asking_by facts flags.now }
{
    let assays = flags[ASSAYS];
    let assay = any_marked(&assays, 0, INDICES);
    Asking {
        mode: facts.mode,
        typed: facts.typed,
        assay,
    }
}

// Whether what has the letter is asked of a file of this mode and type: * of every file, + of those that have both, C of Complete ones, q of
// Quantification ones, Q of those that are both, A of these and, where an assay is declared, of all Quantification ones.
pub fn is_asked(asked: u8, asking: Asking) -> bool
    ensures { result ≡ asks asked asking.mode asking.typed asking.assay }
{
    let mode = asking.mode;
    let typed = asking.typed;
    if asked == b'*' {
        return true;
    }
    if mode == 0 || typed == 0 {
        return false;
    }
    let complete = mode == b'C';
    let quantified = typed == b'Q';
    match asked {
        b'+' => true,
        b'C' => complete,
        b'q' => quantified,
        b'Q' => quantified & complete,
        b'A' => quantified & (complete | asking.assay),
        _ => false,
    }
}
