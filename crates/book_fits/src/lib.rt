// Whether a name fits a row's pattern.
#![tactic(auto)]

ghost use Rattle.std.specs.Prelude.{◌≡◌, [], ◌≤◌, length, get_or, drop, MatchOption};
ghost use Rattle.text_bytes.specs.Bytes.{SPACE as space};
ghost use Rattle.book_names.specs.Names.{pieces, fits as fitsIn};
ghost use Rattle.book_names.specs.Steps.{Place, flawed};
ghost use Rattle.value_references.specs.declared.index.Flaw.TheVariants.{Form};

use book_names::{Match, PLACE};
use text_bytes::SPACE;
use value_references::index::{Flaw, Index, read_index, sooner};

// What stands where a pattern has a place: its bytes, the index that is taken for it, 1 for a bad one, and its flaw, `Form` for none.
#[derive(Clone, Copy)]
struct Bracket {
    width: usize,
    taken: usize,
    flaw: Flaw,
}

// What stands in the name from `b` on, where the pattern has a place; nothing where no index stands there.
fn read_place(s: &[u8], b: usize) -> Option<Bracket>
    requires { b ≤ length s.now }
    ensures { MatchOption result (Place (drop b s.now) 0 0 Form) (λ r. (1 ≤ r.width) × Place (drop b s.now) r.taken r.width r.flaw) }
{
    match read_index(&s[b..]) {
        Index::Not => None,
        Index::Bad(flaw, width) => Some(Bracket {
            width,
            taken: 1,
            flaw,
        }),
        Index::Is(taken, width) => Some(Bracket {
            width,
            taken,
            flaw: Flaw::Form,
        }),
    }
}

// Where the pattern has ended: a name that goes on differs, and one that ends there fits, or misses where an index had a flaw.
fn ended(s: &[u8], b: usize, i: usize, j: usize, flaw: Flaw) -> Match
    ensures { result ≡ flawed flaw (fitsIn [] (drop b s.now) i j) }
{
    if b < s.len() {
        return Match::Differs;
    }
    match flaw {
        Flaw::Form => Match::Fits(i, j),
        Flaw::Zero => Match::Misses(Flaw::Zero),
        Flaw::Over => Match::Misses(Flaw::Over),
    }
}

// Whether `s` fits the pattern that stands in the row `p` from `from` on. A bad index is noted and passed over as if it were 1.
pub fn fits(p: &[u8], from: usize, s: &[u8]) -> Match
    ensures { result ≡ fitsIn (pieces (drop from p.now)) s.now 0 0 }
{
    let mut a = from;
    let mut b = 0;
    let mut i = 0;
    let mut j = 0;
    let mut flaw = Flaw::Form;
    // Kept: a turn passes over one byte of the pattern or the three of a place, so that a `for` would have to count the bytes still to pass over.
    while a < p.len() {
        let x = p[a];
        if x == SPACE {
            return ended(s, b, i, j, flaw);
        }
        if x == b'[' {
            let Some(read) = read_place(s, b) else {
                return Match::Differs;
            };
            a += PLACE;
            b += read.width;
            flaw = sooner(flaw, read.flaw);
            if i == 0 {
                i = read.taken;
            } else if j == 0 {
                j = read.taken;
            } else {
                return Match::Differs;
            }
        } else {
            if byte_of(s, b) != x {
                return Match::Differs;
            }
            a += 1;
            b += 1;
        }
    }
    ended(s, b, i, j, flaw)
}

// The byte of a name at a place, a space past its end.
pub fn byte_of(name: &[u8], i: usize) -> u8
    ensures { result ≡ get_or name.now i space }
{
    if i < name.len() { name[i] } else { SPACE }
}
