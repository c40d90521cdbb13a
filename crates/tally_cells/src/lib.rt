// What a cell under a counted column says, read where it stands in its line.
#![tactic(auto)]

ghost use Rattle.std.specs.Prelude.{◌≡◌, not, ◌&&◌, ◌||◌, ◌⊎◌, ◌+◌, ◌≤◌, eqb, ltb, length, get_or};
ghost use Rattle.text.specs.Lines.{TAB as tab};
ghost use Rattle.fee_shares.specs.Sums.{bit};
ghost use Rattle.tally_cells.specs.Places.{Writes, Counts};

use text::cells::{TAB, cell_end};
use value_references::index::is_digit;
use values::{MINUS, WHOLE_DIGITS, is_null, is_whole, without_minus};

// A number in digits, and where they end.
#[derive(Clone, Copy)]
struct Digits {
    number: u64,
    end: usize,
}

// What a cell counts, whether it is missing and whether it is below zero, 1 for yes; and where it ends.
// Kept: numbers, since each is added to a sum as it is.
#[derive(Clone, Copy)]
pub struct Counted {
    pub end: usize,
    pub count: u64,
    pub missing: u64,
    pub below: u64,
}

// Up to where nine digits go from a place on, no further than the text.
fn stop_after(from: usize, end: usize) -> usize
    requires { from ≤ end }
    ensures { (from ≤ result) × (result ≤ end) × (result ≤ from + 9) × ((result ≡ end) ⊎ (result ≡ from + 9)) }
{
    if end - from > WHOLE_DIGITS {
        from + WHOLE_DIGITS
    } else {
        end
    }
}

// The digits from a place on, nine at most, read in one walk.
fn digits_from(s: &[u8], from: usize) -> Digits
    requires { from ≤ length s.now }
    ensures { Writes s.now from result }
{
    let stop = stop_after(from, s.len());
    let mut n: u64 = 0;
    for i in from..stop {
        if !is_digit(s[i]) {
            return Digits { number: n, end: i };
        }
        n = n * 10 + u64::from(s[i] - b'0');
    }
    Digits {
        number: n,
        end: stop,
    }
}

// 1 for a count with a minus that is not zero.
fn below(first: u8, count: u64) -> u64
    ensures { result ≡ bit (eqb first 45 && not (eqb count 0)) }
{
    if first != MINUS {
        return 0;
    }
    if count == 0 {
        return 0;
    }
    1
}

// A cell with no digit in front, or with something after its digits: `null`, a whole with a minus, or what counts nothing.
fn other_count(line: &[u8], at: usize) -> Counted
    requires { at ≤ length line.now }
    ensures { Counts line.now at result }
{
    let end = cell_end(line, at);
    let cell = &line[at..end];
    if is_null(cell) {
        return Counted {
            end,
            count: 0,
            missing: 1,
            below: 0,
        };
    }
    if !is_whole(cell) {
        return Counted {
            end,
            count: 0,
            missing: 0,
            below: 0,
        };
    }
    let digits = digits_from(without_minus(cell), 0);
    let count = digits.number;
    Counted {
        end,
        count,
        missing: 0,
        below: below(cell[0], count),
    }
}

// Whether a cell ends at this place.
fn is_end(line: &[u8], i: usize) -> bool
    requires { i ≤ length line.now }
    ensures { result ≡ (eqb i (length line.now) || eqb (get_or line.now i 0) tab) }
{
    if i == line.len() {
        return true;
    }
    line[i] == TAB
}

// Whether digits from one place to another are one at least and all of their cell.
fn is_plain(line: &[u8], at: usize, end: usize) -> bool
    requires { (at ≤ end) × (end ≤ length line.now) }
    ensures { result ≡ (ltb at end && (eqb end (length line.now) || eqb (get_or line.now end 0) tab)) }
{
    (at < end) & is_end(line, end)
}

// What the cell that begins at a place counts. Nearly all are digits alone, and those are read in one walk; what is read of any other is copied, so that the
// numbers of a plain count need not go through memory.
pub fn count_at(line: &[u8], at: usize) -> Counted
    requires { at ≤ length line.now }
    ensures { Counts line.now at result }
{
    let digits = digits_from(line, at);
    let end = digits.end;
    if !is_plain(line, at, end) {
        let c = other_count(line, at);
        return Counted {
            end: c.end,
            count: c.count,
            missing: c.missing,
            below: c.below,
        };
    }
    Counted {
        end,
        count: digits.number,
        missing: 0,
        below: 0,
    }
}
