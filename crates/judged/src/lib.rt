// The judging call over plain places.
#![tactic(auto)]

ghost use Rattle.std.specs.Prelude.{◌≡◌};
ghost use Rattle.numbers.specs.Refusals.{number_in, answer_or};
ghost use Rattle.judged.specs.Judged.{outcome, judged};

use book_text::book;
use judging::calls::{begin, next_part};
use numbers::Refusal;
use scan::state::FIRSTS;

// More breaks than a file can have: its part is the whole.
const ALL: u32 = 4000000000;

// All breaks of a file, in order of line, then cell, then rule: their count is the answer, and those that fit are written, four places each: rule, line,
// cell, first. A file over the limit is refused, and the list stays as it was.
pub fn judge_places(file: &[u8], places: &mut [u32]) -> Result<u32, Refusal>
    ensures { outcome (number_in result) (answer_or 0 result) places.new ≡ judged file.now places.old }
{
    let rows = book();
    let first = begin(&rows, file)?;
    let mut slots = [0u32; FIRSTS];
    let whole = next_part(places, ALL, &rows, file, first, &mut slots);
    Ok(whole.stand.held)
}
