// An index in square brackets, as it stands in keys, columns and references.
ghost use Rattle.std.specs.Prelude.{◌≡◌, ◌+◌, ◌≤◌, ◌<◌, length, get_or, drop};
ghost use Rattle.value_references.specs.Index.{is_digit, digits, number, index_at, is_read, index_in, flaw_in, is_form, sooner as soonerOf, Run};

// The highest index.
const MOST: usize = 64;

// Where the digits of an index end at the latest: behind `[` and two of them.
const LATEST: usize = 3;

// Why a name is not known: no form is like it; an index is zero or begins with zero; an index is over 64.
// Kept: `Form` stands for no flaw in `flaw_in`, `sooner` and `is_form` of specs/Index.antt, as an Option's None would.
#[derive(Clone, Copy)]
pub enum Flaw {
    Form,
    Zero,
    Over,
}

// What stands at the front of a text: no index, a bad one with its flaw and the number of its bytes, or an index with the number of its bytes.
// Kept: three cases, of `index_at` in specs/Index.antt; a Result in an Option would name them no better.
#[derive(Clone, Copy)]
pub enum Index {
    Not,
    Bad(Flaw, usize),
    Is(usize, usize),
}

// The byte at `i`, 0 past the end.
pub fn byte_at(s: &[u8], i: usize) -> usize
    ensures { result ≡ get_or s.now i 0 }
{
    if i < s.len() { usize::from(s[i]) } else { 0 }
}

// Whether a byte is `0` to `9`.
pub fn is_digit(b: u8) -> bool
    ensures { result ≡ is_digit b }
{
    b.is_ascii_digit()
}

// The first place from `from` on where no digit stands, or the length.
pub fn digits_end(s: &[u8], from: usize) -> usize
    requires { from ≤ length s.now }
    ensures { result ≡ from + length (digits (drop from s.now)) }
{
    for end in from..s.len() {
        if !is_digit(s[end]) {
            return end;
        }
    }
    s.len()
}

// The number of the digits from the second byte of `s` up to `end`, or some number over 64 where it is over: of three digits or more it is, since the first is not zero.
fn small_number(s: &[u8], end: usize) -> usize
    requires { Run s.now end }
    ensures { (result ≤ 64 → result ≡ number 0 (digits (drop 1 s.now))) × (64 < result → 64 < number 0 (digits (drop 1 s.now))) }
{
    if LATEST < end {
        return MOST + 1;
    }
    let first = usize::from(s[1]) - 48;
    if end < LATEST {
        return first;
    }
    first * 10 + (usize::from(s[2]) - 48)
}

// The index at the front of `s`. One that begins with zero is bad, else one over 64; brackets that are empty or hold more than digits are none.
pub fn read_index(s: &[u8]) -> Index
    ensures { result ≡ index_at s.now }
{
    if byte_at(s, 0) != 91 {
        return Index::Not;
    }
    let end = digits_end(s, 1);
    if end <= 1 {
        return Index::Not;
    }
    if byte_at(s, end) != 93 {
        return Index::Not;
    }
    let w = end + 1;
    if byte_at(s, 1) == 48 {
        return Index::Bad(Flaw::Zero, w);
    }
    let n = small_number(s, end);
    if MOST < n {
        return Index::Bad(Flaw::Over, w);
    }
    Index::Is(n, w)
}

// Whether brackets with digits stand there, good or bad.
pub fn is_read(found: Index) -> bool
    ensures { result ≡ is_read found }
{
    !matches!(found, Index::Not)
}

// The index that was read, 0 for none.
pub fn index_in(found: Index) -> usize
    ensures { result ≡ index_in found }
{
    match found {
        Index::Not => 0,
        Index::Bad(..) => 0,
        Index::Is(i, _) => i,
    }
}

// Its flaw, `Form` for none.
pub fn flaw_in(found: Index) -> Flaw
    ensures { result ≡ flaw_in found }
{
    match found {
        Index::Bad(flaw, _) => flaw,
        _ => Flaw::Form,
    }
}

// Whether no index is bad.
pub fn is_form(flaw: Flaw) -> bool
    ensures { result ≡ is_form flaw }
{
    matches!(flaw, Flaw::Form)
}

// The first of two flaws, `Form` for none.
pub fn sooner(first: Flaw, second: Flaw) -> Flaw
    ensures { result ≡ soonerOf first second }
{
    match first {
        Flaw::Form => second,
        _ => first,
    }
}
