// Whether a value is of its kind, by the letters of the book.
#![tactic(auto)]

ghost use Rattle.std.specs.Prelude.{◌≡◌, ◌||◌};
ghost use Rattle.text_bytes.specs.Bytes.{same};
ghost use Rattle.value_references.specs.References.{ref_in, Tells};
ghost use Rattle.book_kinds.specs.Kinds.{family_number, word_of, is_kept, is_fixed, of_kind, cell_of_kind};

use text_bytes::same_bytes;
use value_parameters::{is_parameter, is_parameters};
use value_references::index::{Index, index_in};
use value_references::words::{word, words};
use value_references::{Named, read_reference, references};
use values::{is_decimal, is_decimals, is_null, is_text, is_whole, is_window};

// The number of the family that a letter stands for: 0 sample, 1 assay, 2 study variable, 3 run; 4 for none.
// Kept: the definition `family_number` has 4 for none, and `word_of` and `ids_of` read past their lists there.
pub fn family_number(family: u8) -> usize
    ensures { result ≡ family_number family }
{
    match family {
        b'S' => 0,
        b'A' => 1,
        b'V' => 2,
        b'R' => 3,
        _ => 4,
    }
}

// The index, good or bad, that the value has as a reference to the family.
pub fn reference_to(family: u8, s: &[u8]) -> Index
    ensures { result ≡ ref_in (word_of family) s.now }
{
    let all = words();
    read_reference(word(&all, family_number(family)), s)
}

// What the value says as a list of references to the family.
pub fn references_to(family: u8, s: &[u8]) -> Named
    ensures { Tells (word_of family) s.now result }
{
    let all = words();
    references(word(&all, family_number(family)), s)
}

// Whether the value is text and not `null`.
#[tactic(auto, unfolding(crate::specs::Kinds::is_kept))]
fn is_kept(s: &[u8]) -> bool
    ensures { result ≡ is_kept s.now }
{
    !is_null(s) && is_text(s)
}

// Whether the value is one of two.
fn is_either(s: &[u8], a: &[u8], b: &[u8]) -> bool
    ensures { result ≡ (same s.now a.now || same s.now b.now) }
{
    same_bytes(s, a) || same_bytes(s, b)
}

// Whether the value is a reliability of sections 1 to 3.
#[tactic(auto, unfolding(crate::specs::Kinds::is_fixed, text_bytes::specs::Bytes::bytes))]
fn is_reliability(s: &[u8]) -> bool
    ensures { result ≡ is_fixed 82 s.now }
{
    is_either(s, b"1", b"2") || same_bytes(s, b"3")
}

// Whether the value is of the kind. A letter that stands for no kind is that of text.
pub fn of_kind(kind: u8, family: u8, s: &[u8]) -> bool
    ensures { result ≡ of_kind kind family s.now }
{
    match kind {
        b'W' => is_whole(s),
        b'D' => is_decimal(s),
        b'L' => is_decimals(s),
        b'N' => is_window(s),
        b'P' => is_parameter(s),
        b'Q' => is_parameters(s),
        b'r' => index_in(reference_to(family, s)) != 0,
        b'l' => references_to(family, s).good,
        b'K' => is_kept(s),
        b'R' => is_reliability(s),
        b'U' => is_either(s, b"0", b"1"),
        b'v' => is_either(s, b"1.0", b"1.0.0"),
        b'm' => is_either(s, b"Summary", b"Complete"),
        b't' => is_either(s, b"Quantification", b"Identification"),
        _ => is_text(s),
    }
}

// Whether a table's cell is of its column's kind: `null` stands for missing, save where it may not stand. The kinds that most columns have come first and
// do without the call of of_kind, which costs as much as they do.
pub fn cell_of_kind(kind: u8, s: &[u8]) -> bool
    ensures { result ≡ cell_of_kind kind s.now }
{
    if kind == b'T' {
        return is_text(s);
    }
    if kind == b'K' {
        return is_kept(s);
    }
    if is_null(s) {
        return true;
    }
    match kind {
        b'W' => is_whole(s),
        b'D' => is_decimal(s),
        b'Q' => is_parameters(s),
        _ => of_kind(kind, b'-', s),
    }
}
