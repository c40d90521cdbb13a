// Text, whole, decimal, decimal list, window and null. Each answers for any bytes, the empty ones too.
#![tactic(auto)]

ghost use Rattle.std.specs.Prelude.{◌≡◌};
ghost use Rattle.values.specs.Values.{are_digits, unsigned, unmarked, is_e, is_exponent, CutAt, is_text, is_whole, is_decimal, is_decimals, is_window, is_null};

use text_bytes::{BAR, cut_at, same_bytes, seek};
use value_references::index::{byte_at, digits_end, is_digit};

pub const MINUS: u8 = b'-';

pub const PLUS: u8 = b'+';

// The dot, as `byte_at` answers it.
const DOT: usize = 46;

// Digits are one at least.
const FEWEST_DIGITS: usize = 1;

pub const WHOLE_DIGITS: usize = 9;

pub const EXPONENT_DIGITS: usize = 3;

// Where a numeral without its minus is cut: its digits before a dot end at `whole`, those after it stand from `from` to `to`, and from there on its exponent.
// And whether it is a numeral.
// Kept: `CutAt` in specs/Values.antt bounds these places in what is no numeral too, of which an Option would say nothing.
#[derive(Clone, Copy)]
pub struct Cuts {
    pub good: bool,
    pub whole: usize,
    pub from: usize,
    pub to: usize,
}

// Whether there is at least one byte.
pub fn is_text(s: &[u8]) -> bool
    ensures { result ≡ is_text s.now }
{
    s.len() > 0
}

// Whether the cell is `null`, in these letters.
pub fn is_null(s: &[u8]) -> bool
    ensures { result ≡ is_null s.now }
{
    same_bytes(s, b"null")
}

// Whether there is one digit or more and nothing else.
pub fn is_digits(s: &[u8]) -> bool
    ensures { result ≡ are_digits s.now }
{
    s.len() >= FEWEST_DIGITS && s.iter().all(|b| is_digit(*b))
}

// What stands after one leading minus; all of it where there is none.
pub fn without_minus(s: &[u8]) -> &[u8]
    ensures { result.now ≡ unsigned s.now }
{
    if s.len() == 0 {
        return s;
    }
    if s[0] == MINUS {
        return &s[1..];
    }
    s
}

// What stands after one leading plus or minus; all of it where there is none.
pub fn without_mark(s: &[u8]) -> &[u8]
    ensures { result.now ≡ unmarked s.now }
{
    if s.len() == 0 {
        return s;
    }
    if s[0] == PLUS {
        return &s[1..];
    }
    if s[0] == MINUS {
        return &s[1..];
    }
    s
}

// Whether a byte is the letter of an exponent.
fn is_e(b: u8) -> bool
    ensures { result ≡ is_e b }
{
    if b == b'E' {
        return true;
    }
    b == b'e'
}

// Whether nothing stands there, or `E` or `e`, an optional plus or minus and 1 to 3 digits.
fn is_exponent(s: &[u8]) -> bool
    ensures { result ≡ is_exponent s.now }
{
    if s.len() == 0 {
        return true;
    }
    if !is_e(s[0]) {
        return false;
    }
    let d = without_mark(&s[1..]);
    if d.len() > EXPONENT_DIGITS {
        return false;
    }
    is_digits(d)
}

// Where a numeral without its minus is cut, found in one walk from left to right, and whether it is one.
pub fn cut(u: &[u8]) -> Cuts
    ensures { CutAt u.now result }
{
    let whole = digits_end(u, 0);
    if byte_at(u, whole) != DOT {
        let good = (0 < whole) & is_exponent(&u[whole..]);
        return Cuts {
            good,
            whole,
            from: whole,
            to: whole,
        };
    }
    let from = whole + 1;
    let to = digits_end(u, from);
    let sides = (0 < whole) & (from < to);
    let good = sides & is_exponent(&u[to..]);
    Cuts {
        good,
        whole,
        from,
        to,
    }
}

// Whether it is an optional minus and 1 to 9 digits.
pub fn is_whole(s: &[u8]) -> bool
    ensures { result ≡ is_whole s.now }
{
    let u = without_minus(s);
    if u.len() > WHOLE_DIGITS {
        return false;
    }
    is_digits(u)
}

// Whether it is a decimal: a numeral after an optional minus, or `INF`, or `NaN`, which take no minus.
pub fn is_decimal(s: &[u8]) -> bool
    ensures { result ≡ is_decimal s.now }
{
    let numeral = cut(without_minus(s));
    if numeral.good {
        return true;
    }
    if same_bytes(s, b"INF") {
        return true;
    }
    same_bytes(s, b"NaN")
}

// Whether every piece between bars is a decimal. An empty piece is none.
pub fn is_decimals(s: &[u8]) -> bool
    ensures { result ≡ is_decimals s.now }
{
    cut_at(s, BAR).all(|piece| is_decimal(piece))
}

// Whether it is two decimals with one bar between them.
pub fn is_window(s: &[u8]) -> bool
    ensures { result ≡ is_window s.now }
{
    let e = seek(s, 0, BAR);
    if e == s.len() {
        return false;
    }
    let at = e + 1;
    if seek(s, at, BAR) < s.len() {
        return false;
    }
    if is_decimal(&s[..e]) {
        return is_decimal(&s[at..]);
    }
    false
}
