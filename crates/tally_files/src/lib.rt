// The tally of a file: its three counts over protein rows and runs, the rows of each section, and the missing cells in the columns that are counted.
#![tactic(auto)]

ghost use Rattle.std.specs.Prelude.{◌≡◌};
ghost use Rattle.numbers.specs.Refusals.{number_in, answer_or};
ghost use Rattle.tally.specs.Tally.{zero, outcome};
ghost use Rattle.tally_files.specs.Tallied.{tallied};

use column_marks::{Asked, marks_of};
use judged::judge_places;
use numbers::Refusal;
use tally::Tally;
use tally_rows::found_in;

// The tally of a file, its rows walked once after it is judged. Refused where judging it is, as too long, where it is not accepted, and where a count in it is
// below zero.
pub fn tally(file: &[u8]) -> Result<Tally, Refusal>
    ensures { outcome (number_in result) (answer_or zero result) ≡ tallied file.now }
{
    let mut none = [0u32; 1];
    let breaks = judge_places(file, &mut none)?;
    if breaks != 0 {
        return Err(Refusal::NotAccepted);
    }
    let columns = marks_of(file, Asked::Counters);
    let marks = columns.of;
    let found = found_in(file, &marks, columns.width);
    if found.below != 0 {
        return Err(Refusal::BelowZero);
    }
    Ok(found.tally)
}
