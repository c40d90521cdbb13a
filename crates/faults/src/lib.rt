// The judging call over a lent list of records.
#![tactic(auto)]

ghost use Rattle.std.specs.Prelude.{◌≡◌, ◌<◌, ◌≤◌, ◌+◌, ◌*◌, length, set};
ghost use Rattle.std.proofs.lemmas.List.Edits.{sets};
ghost use Rattle.fault_steps.specs.Steps.{record_at, records};
ghost use Rattle.numbers.specs.Refusals.{number_in, answer_or};
ghost use Rattle.faults.specs.Records.{outcome, judged};

use book_text::book;
use fault_steps::{Fault, PLACES, begin, next};
use numbers::Refusal;
use scan::state::FIRSTS;

// The record whose numbers begin at place j.
fn record_at(places: &[u32], j: usize) -> Fault
    requires { j + 3 < length places.now }
    ensures { result ≡ record_at places.now j }
{
    Fault {
        rule: places[j],
        line: places[j + 1],
        cell: places[j + 2],
        first: places[j + 3],
    }
}

// Record k of the list becomes the one whose numbers begin at place j; every other record stays as it was.
fn put_record(places: &[u32], faults: &mut [Fault], j: usize, k: usize)
    requires { (j + 3 < length places.now) × (k < length faults.old) }
    ensures { faults.new ≡ set faults.old k (record_at places.now j) }
{
    faults[k] = record_at(places, j);
}

// n records, from the first of the places to place `at` of the list.
fn copy_out(places: &[u32], faults: &mut [Fault], at: usize, n: usize)
    requires { (n * 4 ≤ length places.now) × (at + n ≤ length faults.old) }
    ensures { faults.new ≡ sets faults.old at (records places.now 0 n) }
{
    for i in 0..n {
        put_record(places, faults, 4 * i, at + i);
    }
}

// All breaks of a file, in order of line, then cell, then rule: their count is the answer, and those that fit are written, a record each. A file over the
// limit is refused as too long, and the list stays as it was.
pub fn judge(file: &[u8], faults: &mut [Fault]) -> Result<u32, Refusal>
    ensures { outcome (number_in result) (answer_or 0 result) faults.new ≡ judged file.now faults.old }
{
    let rows = book();
    let mut s = begin(&rows, file, faults.len())?;
    let mut slots = [0u32; FIRSTS];
    let mut places = [0u32; PLACES];
    while s.more {
        s = next(&rows, file, s, &mut slots, &mut places);
        copy_out(&places, faults, s.from, s.fit);
    }
    Ok(s.count)
}
