// The kinds for hosts in C: bytes and a number in, a number out.
#![tactic(auto)]

ghost use Rattle.std.specs.Prelude.{◌≡◌};
ghost use Rattle.test_kinds_c.specs.Kinds.{is_kind, said};

use value_parameters::{is_parameter, is_parameters};
use values::{is_decimal, is_decimals, is_text, is_whole, is_window};

// Whether s is of the kind with this number; false for a number that is no kind's.
#[tactic(auto, unfolding(crate::specs::Kinds::is_kind))]
fn is_kind(kind: u32, s: &[u8]) -> bool
    ensures { result ≡ is_kind kind s.now }
{
    match kind {
        0 => is_text(s),
        1 => is_whole(s),
        2 => is_decimal(s),
        3 => is_decimals(s),
        4 => is_window(s),
        5 => is_parameter(s),
        6 => is_parameters(s),
        _ => false,
    }
}

// 1 where s is of the kind, else 0: 0 text, 1 whole, 2 decimal, 3 decimal list, 4 window, 5 parameter, 6 parameter list.
#[unsafe(no_mangle)]
pub extern "C" fn kinds_is(kind: u32, s: &[u8]) -> u32
    ensures { result ≡ said (is_kind kind s.now) }
{
    u32::from(is_kind(kind, s))
}
