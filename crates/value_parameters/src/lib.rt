// Parameters and lists of them, in one pass: the two scans call each other at each quotation mark.
#![tactic(auto)]

ghost use Rattle.std.specs.Prelude.{◌≡◌, true, false, cond, ◌&&◌, ◌||◌, ◌+◌, ◌-◌, ◌≤◌, ◌<◌, length, drop, get_or, eqb, ltb};
ghost use Rattle.text_bytes.specs.Places.{part};
ghost use Rattle.text_bytes.specs.Bytes.{BAR as bar, COMMA as comma, SPACE as space};
ghost use Rattle.value_parameters.specs.Parameters.{OPENS as opens, CLOSES as closes, is_parameter, is_parameters};
ghost use Rattle.value_parameters.specs.Scan.{state, start, one_more, held, run, good};

use text_bytes::{BAR, COMMA, SPACE};

pub const MARK: u8 = b'"';

pub const OPENS: u8 = b'[';

pub const CLOSES: u8 = b']';

// The scans nest at most once for each byte of a block.
pub const BLOCK: usize = 1024;

// What a scan carries: its place, the commas outside marks, at most 4, whether a quotation is open,
// and whether the third field holds something besides spaces.
#[derive(Clone, Copy)]
pub struct Scan {
    pub at: usize,
    pub commas: u32,
    pub quoted: bool,
    pub filled: bool,
}

// A walk over a part: its state, and the byte that it read last, which closes the part or does not; 0 before the first and within a quotation. The byte is as
// wide as a place: with padding behind it a copy of this would take two halves that overlap, and quotation marks three times as long.
#[derive(Clone, Copy)]
pub struct Walk {
    pub last: usize,
    pub scan: Scan,
}

// A walk in this state, with the byte that it read last.
fn stands(at: usize, commas: u32, quoted: bool, filled: bool, last: usize) -> Walk
    ensures { (result.scan ≡ state at commas quoted filled) × (result.last ≡ last) }
{
    let scan = Scan {
        at,
        commas,
        quoted,
        filled,
    };
    Walk { last, scan }
}

// The commas, with b if it is one; the count stops at 4.
fn counted(commas: u32, b: u8) -> u32
    ensures { result ≡ cond (eqb b comma) (one_more commas) commas }
{
    if b != COMMA {
        return commas;
    }
    if commas < 4 {
        return commas + 1;
    }
    commas
}

// Whether the third field holds something besides spaces, with b in the field after these commas.
fn fills(commas: u32, filled: bool, b: u8) -> bool
    ensures { result ≡ held commas filled b }
{
    if commas != 2 {
        return filled;
    }
    if b == SPACE {
        return filled;
    }
    true
}

// The same at place i of the field after these commas, which begins with spaces up to `gap`: what stands behind them fills it.
fn fills_from(commas: u32, filled: bool, gap: usize, i: usize) -> bool
    ensures { result ≡ (filled || (eqb commas 2 && ltb gap i)) }
{
    if commas != 2 {
        return filled;
    }
    if gap < i {
        return true;
    }
    filled
}

// Whether b at i is one space more of those that a field begins with, which stand up to `gap`.
fn is_blank(gap: usize, i: usize, b: u8) -> bool
    ensures { result ≡ (eqb b space && eqb gap i) }
{
    if b != SPACE {
        return false;
    }
    gap == i
}

// Whether b, outside marks, ends a part.
fn ends_part(bars: bool, b: u8) -> bool
    ensures { result ≡ (bars && eqb b bar) }
{
    if b == BAR {
        return bars;
    }
    false
}

// The walk over the bytes from `at` up to `end`, where no quotation is open at `at`. Where bars separate, it stops at the first bar outside marks. Most bytes
// are greater than a comma, and one comparison tells that of them at most the bar counts: what they do to the third field is told where the field ends, from
// how far it holds spaces alone.
#[cycle(inside_scan_outside_scan)]
fn outside_scan(s: &[u8], at: usize, end: usize, bars: bool, commas: u32, filled: bool) -> Walk
    requires { (at ≤ end) × (end ≤ length s.now) }
    ensures { (result.scan ≡ run bars (state at commas false filled) (part at end s.now))
        × (result.scan.quoted ≡ false → eqb result.last closes ≡ eqb (get_or (part at result.scan.at s.now) (result.scan.at - at - 1) 0) closes) }
{
    let mut n = commas;
    let mut f = filled;
    let mut gap = at;
    let mut last = 0;
    for i in at..end {
        let b = s[i];
        if b > COMMA {
            if ends_part(bars, b) {
                return stands(i, n, false, fills_from(n, f, gap, i), last);
            }
        } else {
            if b == MARK {
                return inside_scan(s, i + 1, end, bars, n, fills(n, f, b));
            }
            if b == COMMA {
                f = fills_from(n, f, gap, i);
                n = counted(n, b);
                gap = i + 1;
            } else if is_blank(gap, i, b) {
                gap = i + 1;
            }
        }
        last = usize::from(b);
    }
    stands(end, n, false, fills_from(n, f, gap, end), last)
}

// The same, where a quotation is open at `at`: the next mark closes it.
#[cycle(inside_scan_outside_scan)]
fn inside_scan(s: &[u8], at: usize, end: usize, bars: bool, commas: u32, filled: bool) -> Walk
    requires { (at ≤ end) × (end ≤ length s.now) }
    ensures { (result.scan ≡ run bars (state at commas true filled) (part at end s.now))
        × (result.scan.quoted ≡ false → eqb result.last closes ≡ eqb (get_or (part at result.scan.at s.now) (result.scan.at - at - 1) 0) closes) }
{
    let mut f = filled;
    for i in at..end {
        let b = s[i];
        f = fills(commas, f, b);
        if b == MARK {
            return outside_scan(s, i + 1, end, bars, commas, f);
        }
    }
    stands(end, commas, true, f, 0)
}

// The end of the block that starts at i: at most 1,024 bytes on, so that the scans nest at most that deep.
fn block_end(i: usize, end: usize) -> usize
    requires { i < end }
    ensures { (i < result) × (result ≤ end) × (result ≤ i + 1024) }
{
    if end - i > BLOCK { i + BLOCK } else { end }
}

// The walk after a block that starts where it stands. A block that begins with the bar reads nothing, and leaves the byte that the block before it read last.
fn block(s: &[u8], end: usize, bars: bool, w: Walk) -> Walk
    requires { (w.scan.at ≤ end) × (end ≤ length s.now) }
    ensures { (result.scan ≡ run bars w.scan (part w.scan.at end s.now))
        × (result.scan.quoted ≡ false
        → eqb result.last closes ≡ cond (eqb result.scan.at w.scan.at) (eqb w.last closes) (eqb (get_or s.now (result.scan.at - 1) 0) closes)) }
{
    let st = w.scan;
    if st.quoted {
        return inside_scan(s, st.at, end, bars, st.commas, st.filled);
    }
    let r = outside_scan(s, st.at, end, bars, st.commas, st.filled);
    if r.scan.at == st.at {
        return w;
    }
    r
}

// The walk over the part that starts at `at`, block by block: up to the end of s or, where bars separate, up to the first bar outside marks.
fn scan_part(s: &[u8], at: usize, bars: bool) -> Walk
    requires { at ≤ length s.now }
    ensures { (result.scan ≡ run bars (start at) (drop at s.now))
        × (result.scan.quoted ≡ false → eqb result.last closes ≡ eqb (get_or (part at result.scan.at s.now) (result.scan.at - at - 1) 0) closes) }
{
    let mut w = stands(at, 0, false, false, 0);
    while w.scan.at < s.len() {
        let e = block_end(w.scan.at, s.len());
        w = block(s, e, bars, w);
        if w.scan.at < e {
            return w;
        }
    }
    w
}

// Whether a part begins at `at` as a parameter does.
fn begins_part(s: &[u8], at: usize) -> bool
    ensures { result ≡ eqb (get_or s.now at 0) opens }
{
    if at < s.len() {
        return s[at] == OPENS;
    }
    false
}

// Whether a part that begins so, and was walked from there, is a parameter.
fn is_whole_part(w: Walk) -> bool
    ensures { result ≡ (eqb w.last closes && good w.scan) }
{
    if w.last != usize::from(CLOSES) {
        return false;
    }
    if w.scan.commas != 3 {
        return false;
    }
    if w.scan.quoted {
        return false;
    }
    w.scan.filled
}

// Whether every part is a parameter, between the bars outside marks or, where bars separate nothing, in one piece. Each byte is read once, from left to right.
// Kept: from part to part; only the walk over one tells where the next begins.
fn all_parts(s: &[u8], bars: bool) -> bool
    ensures { result ≡ cond bars (is_parameters s.now) (is_parameter s.now) }
{
    let mut at = 0;
    loop {
        if !begins_part(s, at) {
            return false;
        }
        let w = scan_part(s, at + 1, bars);
        if !is_whole_part(w) {
            return false;
        }
        let e = w.scan.at;
        if e == s.len() {
            return true;
        }
        at = e + 1;
    }
}

// Whether the bytes are one parameter. Bars in it separate nothing.
pub fn is_parameter(s: &[u8]) -> bool
    ensures { result ≡ is_parameter s.now }
{
    all_parts(s, false)
}

// Whether every part between the bars outside marks is a parameter. An empty part is none.
pub fn is_parameters(s: &[u8]) -> bool
    ensures { result ≡ is_parameters s.now }
{
    all_parts(s, true)
}
