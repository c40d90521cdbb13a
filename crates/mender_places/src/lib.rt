// The lent buffer that bytes are laid into, and the lent list that changes are noted in, two places each: line and cell. What has no place is counted all the
// same, so that a walk that is lent next to nothing says how long the copy will be.
#![tactic(auto)]

ghost use Rattle.std.specs.Prelude.{◌≡◌, ◌+◌, ◌≤◌, ◌<◌, length};
ghost use Rattle.rules.specs.Breaks.{break_at};
ghost use Rattle.scan.specs.Places.{lent};
ghost use Rattle.mender_places.specs.Places.{lay_all, noted, COPY_MOST, CHANGES_MOST};

// How many bytes are laid, and how many changes are noted.
#[derive(Clone, Copy)]
pub struct Copied {
    pub to: usize,
    pub count: u32,
}

// Bytes more, from place `to` on; the answer is the place behind them. The loop has nothing but the copying in it, so that it is compiled to that of many bytes at
// once.
pub fn lay(copy: &mut [u8], to: usize, bytes: &[u8]) -> usize
    requires { to + length bytes.now ≤ COPY_MOST }
    ensures { lent copy.new result ≡ lay_all (lent copy.old to) bytes.now }
{
    let n = bytes.len().min(copy.len().saturating_sub(to));
    for i in 0..n {
        copy[to + i] = bytes[i];
    }
    to + bytes.len()
}

// One change more, where so many are noted.
pub fn note(changes: &mut [u32], count: u32, line: u32, cell: u32) -> u32
    requires { count + 1 ≤ CHANGES_MOST }
    ensures { lent changes.new result ≡ noted (lent changes.old count) (break_at line cell 19) }
{
    let at = 2 * (count as usize);
    if at + 2 <= changes.len() {
        changes[at] = line;
        changes[at + 1] = cell;
        return count + 1;
    }
    count + 1
}
