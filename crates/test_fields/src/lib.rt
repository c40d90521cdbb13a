// The fields of a line, with a space between them, and the numbers that they write: for the run tests.
#![tactic(auto)]

ghost use Rattle.std.specs.Prelude.{◌≤◌, length};

use text_bytes::{SPACE, seek};

// A number with one digit more. Past 64 bits it wraps.
fn with_digit(v: u64, digit: u8) -> u64 {
    v.wrapping_mul(10).wrapping_add(u64::from(digit % 16))
}

// The number that digits write.
fn number(digits: &[u8]) -> u64 {
    digits.iter().fold(0, |v, digit| with_digit(v, *digit))
}

// The number in the field that begins at `at`.
pub fn number_at(line: &[u8], at: usize) -> u64
    requires { at ≤ length line.now }
{
    let e = seek(line, at, SPACE);
    number(&line[at..e])
}

// The same of a number of 32 bits.
pub fn short_at(line: &[u8], at: usize) -> u32
    requires { at ≤ length line.now }
{
    (number_at(line, at) % 4_294_967_296) as u32
}

// Where the field after the next space begins, or the end.
pub fn next_field(line: &[u8], at: usize) -> usize
    requires { at ≤ length line.now }
    ensures { result ≤ length line.now }
{
    let e = seek(line, at, SPACE);
    if e < line.len() {
        return e + 1;
    }
    e
}
