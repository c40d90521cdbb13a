// The number of the rule that something breaks, 0 for none.
// Kept: the definitions `flaw_rule`, `kind_rule` and `name_rule` have 0 for none, and `rule_at` puts nothing for 0, so that `Some(0)` would be none too.
ghost use Rattle.std.specs.Prelude.{◌≡◌, cond};
ghost use Rattle.scan.specs.Machine.{flaw_rule};

use value_references::index::Flaw;

// An index is zero or has a leading zero; an index is over 64.
const ZERO: u32 = 23;

const OVER: u32 = 24;

// The rule, where `yes` says so.
pub fn rule_if(yes: bool, rule: u32) -> u32
    ensures { result ≡ cond yes rule 0 }
{
    if yes { rule } else { 0 }
}

// The rule that a bad index breaks, and `other` where none is bad.
pub fn flaw_rule(flaw: Flaw, other: u32) -> u32
    ensures { result ≡ flaw_rule flaw other }
{
    match flaw {
        Flaw::Form => other,
        Flaw::Zero => ZERO,
        Flaw::Over => OVER,
    }
}
