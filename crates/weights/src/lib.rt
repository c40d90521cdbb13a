// The weights of a file's study variables: for each the protein rows whose abundance for it is not `null`, counted in one pass over the lines.
#![tactic(auto)]

ghost use Rattle.std.specs.Prelude.{◌≡◌};
ghost use Rattle.numbers.specs.Refusals.{number_in};
ghost use Rattle.weights.specs.Weights.{refusal, outcome, weighed};

use judged::judge_places;
use numbers::Refusal;
use weight_counts::{clear, count_lines};
use weight_marks::marks_of;

// How many study variables there are: a weight stands for each.
pub const VARIABLES: usize = 64;

// Why a file has no weights in so many places, if it has none: judging it is refused, it is not accepted, or the places are not 64, in this order.
fn refusal_of(file: &[u8], places: usize) -> Result<(), Refusal>
    ensures { number_in result ≡ refusal file.now places }
{
    let mut none = [0u32; 1];
    let breaks = judge_places(file, &mut none)?;
    if breaks != 0 {
        return Err(Refusal::NotAccepted);
    }
    if places != VARIABLES {
        return Err(Refusal::NotAsMany);
    }
    Ok(())
}

// The weights of the study variables 1 to 64, each in its place: the protein rows whose cell under `protein_abundance_study_variable[i]` is not `null`, 0 where
// the header has no such column. Refused where the file is too long, where it is not accepted, and where the list has not 64 places, in this order. A refused
// call leaves the list as it was.
pub fn weights(file: &[u8], weights: &mut [u32]) -> Result<(), Refusal>
    ensures { outcome (number_in result) weights.new ≡ weighed file.now weights.old }
{
    refusal_of(file, weights.len())?;
    clear(weights);
    let found = marks_of(file);
    let marks = found.of;
    count_lines(weights, file, &marks, found.width);
    Ok(())
}
