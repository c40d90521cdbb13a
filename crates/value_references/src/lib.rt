// References to the ids of a family, and lists of them.
#![tactic(auto)]

pub mod index;
pub mod words;

ghost use Rattle.std.specs.Prelude.{◌≡◌, true, cond, ◌-◌, ◌≤◌, length, drop, set, eqb};
ghost use Rattle.value_references.specs.declared.index.Flaw.TheVariants.{Form};
ghost use Rattle.value_references.specs.References.{ref_in, ref_to, trimmed, Tells};

use crate::index::{Flaw, Index, flaw_in, index_in, is_form, is_read, read_index, sooner};
use text_bytes::{COMMA, SPACE, begins_with, seek};

// How many families of ids there are, and how many indices a family has.
pub const FAMILIES: usize = 4;

pub const INDICES: usize = 64;

// What a list of references says: whether it is one; the flaw for which it is none, `Form` where another index in each place would not make it one; and at
// place i - 1 whether it names the index i.
// Kept: `Tells` in specs/References.antt says what is named in a list that is none too, which a Result would not hand out.
#[derive(Clone, Copy)]
pub struct Named {
    pub good: bool,
    pub flaw: Flaw,
    pub named: [bool; INDICES],
}

// The index, good or bad, that s has behind the word, where nothing comes after it.
pub fn read_reference(word: &[u8], s: &[u8]) -> Index
    ensures { result ≡ ref_in word.now s.now }
{
    if !begins_with(word, s) {
        return Index::Not;
    }
    let n = word.len();
    let rest = &s[n..];
    let found = read_index(rest);
    match found {
        Index::Not => Index::Not,
        Index::Bad(_, w) => { if w == rest.len() { found } else { Index::Not } }
        Index::Is(_, w) => { if w == rest.len() { found } else { Index::Not } }
    }
}

// The index that s refers to, where s is the word and then an index; 0 where it is not.
pub fn reference(word: &[u8], s: &[u8]) -> usize
    ensures { result ≡ ref_to word.now s.now }
{
    index_in(read_reference(word, s))
}

// The first place from `from` on where no space stands, or the length.
fn skip_spaces(s: &[u8], from: usize) -> usize
    requires { from ≤ length s.now }
    ensures { (from ≤ result) × (result ≤ length s.now) × (drop result s.now ≡ trimmed (drop from s.now)) }
{
    for i in from..s.len() {
        if s[i] != SPACE {
            return i;
        }
    }
    s.len()
}

// Marks the index i as named; 0 is none.
fn mark(named: &mut [bool; INDICES], i: usize)
    requires { i ≤ 64 }
    ensures { named.new ≡ cond (eqb i 0) named.old (set named.old (i - 1) true) }
{
    if i > 0 {
        named[i - 1] = true;
    }
}

// The flaw of a list, where each of its parts is like a reference.
fn flaw_where(like: bool, flaw: Flaw) -> Flaw
    ensures { result ≡ cond like flaw Form }
{
    if like { flaw } else { Flaw::Form }
}

// What the parts between commas refer to, the spaces after each comma left out.
pub fn references(word: &[u8], s: &[u8]) -> Named
    ensures { Tells word.now s.now result }
{
    let mut like = true;
    let mut flaw = Flaw::Form;
    let mut named = [false; INDICES];
    let mut at = 0;
    loop {
        let e = seek(s, at, COMMA);
        let found = read_reference(word, &s[at..e]);
        like &= is_read(found);
        flaw = sooner(flaw, flaw_in(found));
        mark(&mut named, index_in(found));
        if e == s.len() {
            return Named {
                good: like & is_form(flaw),
                flaw: flaw_where(like, flaw),
                named,
            };
        }
        at = skip_spaces(s, e + 1);
    }
}
