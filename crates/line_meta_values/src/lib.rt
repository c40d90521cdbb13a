// A metadata value, by the letters of its key: the rule that it breaks, 0 for none.
#![tactic(auto)]

ghost use Rattle.std.specs.Prelude.{◌≡◌, ◌≤◌};
ghost use Rattle.book.specs.Letters.{REFERENCE as reference, REFERENCES as references};
ghost use Rattle.book_ids.specs.Ids.{Flags};
ghost use Rattle.scan.specs.Machine.{ids_of, kind_rule};

use book_kinds::{family_number, of_kind, reference_to, references_to};
use scan::broken::{flaw_rule, rule_if};
use value_references::index::{flaw_in, index_in};
use value_references::{FAMILIES, INDICES};

// The value is not of its kind; it names an undeclared id.
const WRONG: u32 = 7;

const UNDECLARED: u32 = 8;

// Whether the index of the family is declared. None is of what is no family.
fn is_declared(flags: &[[bool; INDICES]; FAMILIES], family: usize, index: usize) -> bool
    requires flags { Flags flags.now }
    requires le_index { (1 ≤ index) × (index ≤ 64) }
    ensures { result ≡ ids_of flags.now family index }
{
    if family < FAMILIES {
        return flags[family][index - 1];
    }
    false
}

// A value that is to be one reference to the family.
fn judge_reference(flags: &[[bool; INDICES]; FAMILIES], family: u8, value: &[u8]) -> u32
    requires { Flags flags.now }
    ensures { result ≡ kind_rule (ids_of flags.now) reference family value.now }
{
    let found = reference_to(family, value);
    let index = index_in(found);
    if index == 0 {
        return flaw_rule(flaw_in(found), WRONG);
    }
    let declared = is_declared(flags, family_number(family), index);
    rule_if(!declared, UNDECLARED)
}

// A value that is to be a list of references to the family. One pass over it, then one over the indices.
fn judge_references(flags: &[[bool; INDICES]; FAMILIES], family: u8, value: &[u8]) -> u32
    requires { Flags flags.now }
    ensures { result ≡ kind_rule (ids_of flags.now) references family value.now }
{
    let told = references_to(family, value);
    if !told.good {
        return flaw_rule(told.flaw, WRONG);
    }
    let number = family_number(family);
    for (i, named) in told.named.iter().enumerate() {
        if *named & !is_declared(flags, number, i + 1) {
            return UNDECLARED;
        }
    }
    0
}

// The rule that the value of a key of the kind and family breaks.
pub fn judge_value(flags: &[[bool; INDICES]; FAMILIES], kind: u8, family: u8, value: &[u8]) -> u32
    requires { Flags flags.now }
    ensures { result ≡ kind_rule (ids_of flags.now) kind family value.now }
{
    match kind {
        b'r' => judge_reference(flags, family, value),
        b'l' => judge_references(flags, family, value),
        _ => rule_if(!of_kind(kind, family, value), WRONG),
    }
}
