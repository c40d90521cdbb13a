// The lent places that breaks are put into, four for each: rule, line, cell, and where what is repeated stands first, 0 for none.
ghost use Rattle.std.specs.Prelude.{◌+◌, ◌≤◌};
ghost use Rattle.rules.specs.Breaks.{break_with, break_at, when};
ghost use Rattle.scan.specs.Places.{CEILING, lent, Puts};
ghost use Rattle.scan.specs.Machine.{again_at, rule_at};

// What a judging function is told of a line beside its bytes: its number, and the cell of its first control byte, 0 for none.
// Kept: the definitions `control_cell` and `control_at` have 0 for none, as a break has of its first place, which C reads.
#[derive(Clone, Copy)]
pub struct Tag {
    pub line: u32,
    pub control: u32,
}

// One break more, where `yes` says so: counted in any case, and written where its four places are there.
pub fn put_first(
    places: &mut [u32],
    count: u32,
    yes: bool,
    rule: u32,
    line: u32,
    cell: u32,
    first: u32,
) -> u32
    requires { count + 1 ≤ CEILING }
    ensures { Puts (when yes (break_with line cell rule first)) 1 (lent places.old count) (lent places.new result) }
{
    if !yes {
        return count;
    }
    let at = 4 * (count as usize);
    if at + 4 <= places.len() {
        places[at] = rule;
        places[at + 1] = line;
        places[at + 2] = cell;
        places[at + 3] = first;
        return count + 1;
    }
    count + 1
}

// The same of a rule that is not of what comes again.
pub fn put_if(places: &mut [u32], count: u32, yes: bool, rule: u32, line: u32, cell: u32) -> u32
    requires { count + 1 ≤ CEILING }
    ensures { Puts (when yes (break_at line cell rule)) 1 (lent places.old count) (lent places.new result) }
{
    put_first(places, count, yes, rule, line, cell, 0)
}

// The same of what comes again, where there is a first: 0 is none.
pub fn put_again(places: &mut [u32], count: u32, rule: u32, line: u32, cell: u32, first: u32) -> u32
    requires { count + 1 ≤ CEILING }
    ensures { Puts (again_at rule line cell first) 1 (lent places.old count) (lent places.new result) }
{
    put_first(places, count, first != 0, rule, line, cell, first)
}

// The same of the rule, where it is one: 0 is none.
pub fn put_rule(places: &mut [u32], count: u32, rule: u32, line: u32, cell: u32, first: u32) -> u32
    requires { count + 1 ≤ CEILING }
    ensures { Puts (rule_at rule line cell first) 1 (lent places.old count) (lent places.new result) }
{
    put_first(places, count, rule != 0, rule, line, cell, first)
}
