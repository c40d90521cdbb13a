// The public calls for hosts in C, Rust and Python: numbers, pointers to them, and byte slices. capi/mztab.h says in words what each does.
// Kept: `number: &mut u32` in each call: C reads it.
#![tactic(auto)]

ghost use Rattle.std.specs.Prelude.{◌≡◌};
ghost use Rattle.mztab.specs.Shown.{sought};
ghost use Rattle.judged.specs.Judged.{outcome, judged};
ghost use Rattle.judged_line.specs.Judged.{judged_line};
ghost use Rattle.mender.specs.Mended.{outcome as mendedAs, mended};
ghost use Rattle.mztab.specs.Readings.{reading_of};
ghost use Rattle.faults.specs.Records.{outcome as recorded, judged as judgedRecords};
ghost use Rattle.fee.specs.Amounts.{added, sum_of};
ghost use Rattle.fee.specs.Places.{plain};
ghost use Rattle.fee.specs.Split.{outcome as splitAs, split_of};
ghost use Rattle.rows.specs.Counted.{counted, rows_in};
ghost use Rattle.tally.specs.Tally.{tally_of, placed, in_places, added as addedTally};
ghost use Rattle.tally_files.specs.Tallied.{tallied};
ghost use Rattle.tally_records.specs.Records.{outcome as writtenAs, written, read_as};
ghost use Rattle.weights.specs.Weights.{outcome as weighedAs, weighed};
ghost use Rattle.capi.specs.Answers.{CellAt, CellOrAt, ReadAs};

use fault_steps::Fault;
use faults::judge;
use fee::{Cents, split_places};
use judged::judge_places;
use judged_line::judge_line_places;
use mender::mend;
use mender_places::Copied;
use mztab::cells::{Place, locate, reading};
use mztab::records::Reading;
use numbers::told;
use rows::rows;
use tally::{TOTALS, add, from_places, nothing, to_places};
use tally_files::tally;
use tally_records::{read, write};
use text_bytes::same_bytes;
use value_cases::{double_of, number_of, power_of, whole_of};
use value_readings::Value;

// Where a view stands that is refused: the first zero bytes.
const NOWHERE: Place = Place {
    line: 0,
    cell: 0,
    start: 0,
    end: 0,
};

// A copy that is refused.
const UNCOPIED: Copied = Copied { to: 0, count: 0 };

// A reading that is refused.
const UNREAD: Reading = Reading {
    line: 0,
    cell: 0,
    value: Value::Missing,
};

// The judging call over plain places: answers the count of all breaks, and writes those that fit, four places each: rule, line, cell, first.
#[unsafe(no_mangle)]
pub extern "C" fn mztab_judge(file: &[u8], places: &mut [u32], number: &mut u32) -> u32
    ensures { outcome number.new result places.new ≡ judged file.now places.old }
{
    told(judge_places(file, places), 0, number)
}

// The judging call for one line, 1 to N, under the whole file: answers the count of its breaks, and writes those that fit, as mztab_judge does.
#[unsafe(no_mangle)]
pub extern "C" fn mztab_judge_line(
    file: &[u8],
    line: u32,
    places: &mut [u32],
    number: &mut u32,
) -> u32
    ensures { outcome number.new result places.new ≡ judged_line file.now line places.old }
{
    told(judge_line_places(file, line, places), 0, number)
}

// The mending call: answers the length of the copy, and writes the copy, the count of changes, and those that fit, two places each: line, cell.
#[unsafe(no_mangle)]
pub extern "C" fn mztab_mend(
    file: &[u8],
    copy: &mut [u8],
    changes: &mut [u32],
    number: &mut u32,
    count: &mut u32,
) -> usize
    ensures { mendedAs number.new result count.new copy.new changes.new ≡ mended file.now copy.old changes.old }
{
    let done = told(mend(file, copy, changes), UNCOPIED, number);
    *count = done.count;
    done.to
}

// The judging call over records: the same, with a record for each break.
#[unsafe(no_mangle)]
pub extern "C" fn mztab_faults(file: &[u8], faults: &mut [Fault], number: &mut u32) -> u32
    ensures { recorded number.new result faults.new ≡ judgedRecords file.now faults.old }
{
    told(judge(file, faults), 0, number)
}

// The plain cell call: answers where the view starts in the file, 0 in a refusal, and writes its length and the number.
#[unsafe(no_mangle)]
pub extern "C" fn mztab_cell(
    file: &[u8],
    section: u32,
    row: u32,
    column: u32,
    number: &mut u32,
    length: &mut usize,
) -> usize
    ensures { CellAt file.now (sought file.now section row column) number.new result length.new }
{
    let place = told(locate(file, section, row, column), NOWHERE, number);
    *length = place.end - place.start;
    place.start
}

// The cell call with a stand-in: where the cell is `null`, the view is the stand-in that was lent, and `stood_in` is 1; else it is 0, and the answer is where
// the view starts in the file. Of the stand-in the answer is 0: its first byte.
#[unsafe(no_mangle)]
pub extern "C" fn mztab_cell_or(
    file: &[u8],
    section: u32,
    row: u32,
    column: u32,
    stand_in: &[u8],
    number: &mut u32,
    length: &mut usize,
    stood_in: &mut u32,
) -> usize
    ensures { CellOrAt file.now stand_in.now (sought file.now section row column) number.new result length.new stood_in.new }
{
    let place = told(locate(file, section, row, column), NOWHERE, number);
    let start = place.start;
    let end = place.end;
    if same_bytes(&file[start..end], b"null") {
        *length = stand_in.len();
        *stood_in = 1;
        return 0;
    }
    *length = end - start;
    *stood_in = 0;
    start
}

// The reading call: answers the number of its case and writes line, cell and the values that it carries, 0 for what it does not.
#[unsafe(no_mangle)]
pub extern "C" fn mztab_reading(
    file: &[u8],
    section: u32,
    row: u32,
    column: u32,
    number: &mut u32,
    line: &mut u32,
    cell: &mut u32,
    whole: &mut i64,
    power: &mut i32,
    double: &mut f64,
) -> u32
    ensures { ReadAs (reading_of (sought file.now section row column)) number.new result line.new cell.new whole.new power.new double.new }
{
    let record = told(reading(file, section, row, column), UNREAD, number);
    let value = record.value;
    *line = record.line;
    *cell = record.cell;
    *whole = whole_of(value);
    *power = power_of(value);
    *double = double_of(value);
    number_of(value)
}

// How many rows a section has.
#[unsafe(no_mangle)]
pub extern "C" fn mztab_rows(file: &[u8], section: u32, number: &mut u32) -> u32
    ensures { counted number.new result ≡ rows_in file.now section }
{
    told(rows(file, section), 0, number)
}

// The sum of two amounts in cents.
#[unsafe(no_mangle)]
pub extern "C" fn mztab_add_cents(a: u64, b: u64, number: &mut u32) -> u64
    ensures { added number.new result ≡ sum_of a b }
{
    let sum = told(Cents(a).add(Cents(b)), Cents(0), number);
    sum.0
}

// A fee over weights, one share to a place.
#[unsafe(no_mangle)]
pub extern "C" fn mztab_split_fee(fee: u64, weights: &[u32], shares: &mut [u64], number: &mut u32)
    ensures { splitAs number.new shares.new ≡ split_of plain fee weights.now shares.old }
{
    told(split_places(fee, weights, shares), (), number);
}

// The weights of a file's study variables, one to a place.
#[unsafe(no_mangle)]
pub extern "C" fn mztab_weights(file: &[u8], weights: &mut [u32], number: &mut u32)
    ensures { weighedAs number.new weights.new ≡ weighed file.now weights.old }
{
    told(weights::weights(file, weights), (), number);
}

// The tally of a file, its eight totals one to a place.
#[unsafe(no_mangle)]
pub extern "C" fn mztab_tally(file: &[u8], totals: &mut [u64; TOTALS], number: &mut u32)
    ensures { placed number.new totals.new ≡ in_places (tallied file.now) }
{
    let t = told(tally(file), nothing(), number);
    *totals = to_places(t);
}

// The sum of two tallies.
#[unsafe(no_mangle)]
pub extern "C" fn mztab_tally_add(
    a: &[u64; TOTALS],
    b: &[u64; TOTALS],
    sum: &mut [u64; TOTALS],
    number: &mut u32,
)
    ensures { placed number.new sum.new ≡ in_places (addedTally (tally_of a.now) (tally_of b.now)) }
{
    let first = from_places(*a);
    let second = from_places(*b);
    let t = told(add(first, second), nothing(), number);
    *sum = to_places(t);
}

// Writes the record of a tally, and answers how many bytes it has.
#[unsafe(no_mangle)]
pub extern "C" fn mztab_tally_write(
    totals: &[u64; TOTALS],
    buffer: &mut [u8],
    number: &mut u32,
) -> usize
    ensures { writtenAs number.new result buffer.new ≡ written (tally_of totals.now) buffer.old }
{
    let t = from_places(*totals);
    told(write(t, buffer), 0, number)
}

// The tally that a record holds.
#[unsafe(no_mangle)]
pub extern "C" fn mztab_tally_read(bytes: &[u8], totals: &mut [u64; TOTALS], number: &mut u32)
    ensures { placed number.new totals.new ≡ in_places (read_as bytes.now) }
{
    let t = told(read(bytes), nothing(), number);
    *totals = to_places(t);
}
