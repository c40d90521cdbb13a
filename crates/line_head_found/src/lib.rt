// What the book's answer says of a column name: whether it has none like it, the kind of its cells, and the rule that the name breaks.
#![tactic(auto)]

ghost use Rattle.std.specs.Prelude.{◌≡◌};
ghost use Rattle.book_names.specs.Names.{is_strange};
ghost use Rattle.rules.specs.Rules.{last_index, kind_in};
ghost use Rattle.scan.specs.Machine.{ids_of, column_in, Within, name_rule};

use book_kinds::family_number;
use book_names::Known;
use scan::broken::{flaw_rule, rule_if};
use value_references::index::{Flaw, is_form};
use value_references::{FAMILIES, INDICES};

// The letter of a column that names no id.
const NO_FAMILY: u8 = b'-';

// A known column names an undeclared id.
const UNDECLARED: u32 = 15;

// Whether the book has no name like it (12).
pub fn is_strange(found: Result<Known, Flaw>) -> bool
    ensures { result ≡ is_strange found }
{
    match found {
        Err(flaw) => is_form(flaw),
        Ok(_) => false,
    }
}

// The kind of a column's cells: those under an unknown column are text.
pub fn kind_in(found: Result<Known, Flaw>) -> u8
    ensures { result ≡ kind_in found }
{
    match found {
        Err(_) => b'T',
        Ok(known) => known.kind,
    }
}

// The last of a name's indices, where 0 stands for none.
fn last_index(i: usize, j: usize) -> usize
    ensures { result ≡ last_index i j }
{
    if j == 0 { i } else { j }
}

// Whether a known column names an assay, study variable or run that the file does not declare (15).
fn undeclared(flags: &[[bool; INDICES]; FAMILIES], found: Result<Known, Flaw>) -> bool
    requires { Within found }
    ensures { result ≡ column_in (ids_of flags.now) found }
{
    match found {
        Err(_) => false,
        Ok(known) => {
            if known.family == NO_FAMILY {
                return false;
            }
            let f = family_number(known.family);
            let last = last_index(known.i, known.j);
            !flags[f][last - 1]
        }
    }
}

// The rule that a name breaks which is known, or known but for its indices: it names an undeclared id (15), or an index is bad (23, 24); 0 for none.
pub fn name_rule(flags: &[[bool; INDICES]; FAMILIES], found: Result<Known, Flaw>) -> u32
    requires { Within found }
    ensures { result ≡ name_rule (ids_of flags.now) found }
{
    match found {
        Err(flaw) => flaw_rule(flaw, 0),
        Ok(_) => rule_if(undeclared(flags, found), UNDECLARED),
    }
}
