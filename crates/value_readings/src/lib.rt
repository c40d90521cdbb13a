// The reading of a cell: what its bytes say.
#![tactic(auto)]

ghost use Rattle.std.specs.Prelude.{◌≡◌, true, cond, ◌+◌, ◌≤◌, ◌<◌, ◌^◌, length, leb, pos, nat_abs, ◌-ℤ◌};
ghost use Rattle.std.specs.Float.{binary64};
ghost use Rattle.std.specs.Float.Ieee.{of_int};
ghost use Rattle.text_bytes.specs.Bytes.{is, all};
ghost use Rattle.value_references.specs.Index.{is_digit, number};
ghost use Rattle.values.specs.Values.{is_exponent, is_unsigned, CutAt};
ghost use Rattle.value_readings.specs.Reading.{has_minus, signed, ten, times, double, exponent_of, decimal_of, is_short, numeral_of, value_of};

use text_bytes::same_bytes;
use values::{Cuts, MINUS, cut, is_null, is_whole, without_mark, without_minus};

// A decimal of more digits is a long one, and so is one whose power of ten is below the lowest or above the highest: no double is ten to the 23rd.
pub const DECIMAL_DIGITS: usize = 15;

const LOWEST: i32 = -22;

const HIGHEST: i32 = 22;

// Ten to so much is held by a cast.
const CAST: u32 = 15;

#[derive(Clone, Copy)]
pub enum Value {
    Missing,
    Whole(i64),
    Decimal {
        numerals: i64,
        power: i32,
        double: f64,
    },
    Infinite,
    NotANumber,
    LongDecimal,
    Text,
}

// Whether a minus stands in front.
fn has_minus(s: &[u8]) -> bool
    ensures { result ≡ has_minus s.now }
{
    if s.len() == 0 {
        return false;
    }
    s[0] == MINUS
}

// The number that k digits wrote, n, with the digits of s after them: 15 digits at most.
fn number_on(s: &[u8], n: u64, k: usize) -> u64
    requires { (k + length s.now ≤ 15) × (n < 10 ^ k) × (all is_digit s.now ≡ true) }
    ensures { (result ≡ number n s.now) × (result < 10 ^ (k + length s.now)) }
{
    let mut m = n;
    for b in s {
        m = m * 10 + u64::from(*b - b'0');
    }
    m
}

// n with its sign.
fn with_sign(minus: bool, n: u64) -> i64
    requires { n < 10 ^ 15 }
    ensures { result ≡ signed minus n }
{
    let z = n as i64;
    if minus {
        return -z;
    }
    z
}

// A whole number as a double: the cast loses nothing.
fn exact(n: u64) -> f64
    requires { n ≤ 10 ^ 15 }
    ensures { result ≡ of_int binary64 (pos n) }
{
    let z = n as i64;
    z as f64
}

// Ten to the p as a double, exactly: a cast up to ten to the 15th, above that the product of two casts, which is exact too.
fn ten_to(p: u32) -> f64
    requires { p ≤ 22 }
    ensures { result ≡ ten p }
{
    if p <= CAST {
        return exact(10u64.pow(p));
    }
    exact(10u64.pow(CAST)) * exact(10u64.pow(p - CAST))
}

// One division or one multiplication of two numbers that are held exactly.
fn scaled(n: u64, p: i32) -> f64
    requires { (n < 10 ^ 15) × (nat_abs p ≤ 22) }
    ensures { result ≡ times n p }
{
    let top = exact(n);
    if p < 0 {
        return top / ten_to((-p) as u32);
    }
    top * ten_to(p as u32)
}

// The sign last.
fn double_of(minus: bool, n: u64, p: i32) -> f64
    requires { (n < 10 ^ 15) × (nat_abs p ≤ 22) }
    ensures { result ≡ double minus n p }
{
    let q = scaled(n, p);
    if minus {
        return -q;
    }
    q
}

// The number that an exponent writes.
fn exponent(x: &[u8]) -> i32
    requires { is_exponent x.now ≡ true }
    ensures { (result ≡ exponent_of x.now) × (nat_abs result ≤ 999) }
{
    if x.len() == 0 {
        return 0;
    }
    let rest = &x[1..];
    let minus = has_minus(rest);
    let n = number_on(without_mark(rest), 0, 0);
    let z = with_sign(minus, n);
    z as i32
}

// The exponent less the places.
fn less(x: i32, places: usize) -> i32
    requires { (nat_abs x ≤ 999) × (places ≤ 15) }
    ensures { result ≡ x -ℤ pos places }
{
    x - (places as i32)
}

// Whether a power of ten is one of -22 to 22.
fn is_near(p: i32) -> bool
    ensures { result ≡ leb (nat_abs p) 22 }
{
    if p < LOWEST {
        return false;
    }
    p <= HIGHEST
}

// The reading of the digits a before a dot and c after it with the exponent x.
fn decimal(minus: bool, a: &[u8], c: &[u8], x: i32) -> Value
    requires { (all is_digit a.now ≡ true) × (all is_digit c.now ≡ true) × (nat_abs x ≤ 999) }
    ensures { result ≡ cond (is_short a.now c.now x) (decimal_of minus a.now c.now x) Value.LongDecimal }
{
    if a.len() > DECIMAL_DIGITS {
        return Value::LongDecimal;
    }
    if c.len() > DECIMAL_DIGITS - a.len() {
        return Value::LongDecimal;
    }
    let p = less(x, c.len());
    if !is_near(p) {
        return Value::LongDecimal;
    }
    let k = number_on(a, 0, 0);
    let n = number_on(c, k, a.len());
    let numerals = with_sign(minus, n);
    let double = double_of(minus, n, p);
    Value::Decimal {
        numerals,
        power: p,
        double,
    }
}

// The reading of a numeral without its minus, by where it is cut.
fn numeral(minus: bool, u: &[u8], m: Cuts) -> Value
    requires { CutAt u.now m × (is_unsigned u.now ≡ true) }
    ensures { result ≡ numeral_of minus u.now }
{
    let whole = m.whole;
    let from = m.from;
    let to = m.to;
    let x = exponent(&u[to..]);
    decimal(minus, &u[..whole], &u[from..to], x)
}

// The reading of a whole without its minus.
fn whole(minus: bool, u: &[u8]) -> Value
    requires { (length u.now ≤ 15) × (all is_digit u.now ≡ true) }
    ensures { result ≡ Value.Whole (signed minus (number 0 u.now)) }
{
    let n = number_on(u, 0, 0);
    Value::Whole(with_sign(minus, n))
}

// The reading of what is no numeral.
fn word(s: &[u8]) -> Value
    ensures { result ≡ cond (is s.now "INF") Value.Infinite (cond (is s.now "NaN") Value.NotANumber Value.Text) }
{
    if same_bytes(s, b"INF") {
        return Value::Infinite;
    }
    if same_bytes(s, b"NaN") {
        return Value::NotANumber;
    }
    Value::Text
}

// What the bytes of a cell say: `null` is missing, and what is no number is text, the empty cell too.
pub fn read(s: &[u8]) -> Value
    ensures { result ≡ value_of s.now }
{
    if is_null(s) {
        return Value::Missing;
    }
    let minus = has_minus(s);
    let u = without_minus(s);
    if is_whole(s) {
        return whole(minus, u);
    }
    let m = cut(u);
    if m.good {
        return numeral(minus, u, m);
    }
    word(s)
}
