// Tallies as records: 70 bytes, four of them the length of the rest, two the kind, then the eight totals of eight bytes each, the lowest byte first.
#![tactic(auto)]

ghost use Rattle.std.specs.Prelude.{◌≡◌, ◌++◌, ◌%◌, ◌≤◌, length, take, drop};
ghost use Rattle.numbers.specs.Refusals.{number_in as refusal_in, answer_or};
ghost use Rattle.tally.specs.Tally.{totals, zero as none, outcome as told};
ghost use Rattle.tally_records.specs.Records.{little, number_in, in_eights, eights_from, is_record, outcome, written, read_as};

use numbers::Refusal;
use tally::{TOTALS, Tally, from_places, to_places};

// The bytes of a record.
pub const RECORD: usize = 70;

// What the first four bytes say: how many bytes follow them.
const REST: u64 = 66;

// What the next two bytes say.
const KIND: u64 = 1;

// Where the kind stands, behind the length.
const KIND_AT: usize = 4;

// Where the first total stands.
const TOTALS_AT: usize = 6;

const TOTAL_WIDTH: usize = 8;

// The low byte of a number.
fn low(n: u64) -> u8
    ensures { result ≡ n % 256 }
{
    (n % 256) as u8
}

// Writes as many low bytes of a number as there are places, the lowest first.
fn put(places: &mut [u8], n: u64)
    ensures { places.new ≡ little (length places.old) n }
{
    let mut left = n;
    for place in places.iter_mut() {
        *place = low(left);
        left /= 256;
    }
}

// The number in bytes, the lowest first.
fn get(bytes: &[u8]) -> u64
    requires { length bytes.now ≤ 8 }
    ensures { result ≡ number_in bytes.now }
{
    let mut n: u64 = 0;
    for byte in bytes.iter().rev() {
        n = n * 256 + u64::from(*byte);
    }
    n
}

// Whether the bytes are a record: 70 of them, with the length and the kind in front.
fn is_record(bytes: &[u8]) -> bool
    ensures { result ≡ is_record bytes.now }
{
    if bytes.len() != RECORD {
        return false;
    }
    if get(&bytes[..KIND_AT]) != REST {
        return false;
    }
    get(&bytes[KIND_AT..TOTALS_AT]) == KIND
}

// The eight totals of a record.
fn totals(bytes: &[u8]) -> [u64; TOTALS]
    requires { length bytes.now ≡ 70 }
    ensures { result ≡ eights_from 8 6 bytes.now }
{
    let mut totals = [0u64; TOTALS];
    for (i, total) in totals.iter_mut().enumerate() {
        let at = TOTALS_AT + TOTAL_WIDTH * i;
        *total = get(&bytes[at..at + TOTAL_WIDTH]);
    }
    totals
}

// Writes the eight totals of a record.
fn put_totals(buffer: &mut [u8], tally: Tally)
    requires { 70 ≤ length buffer.old }
    ensures { buffer.new ≡ take 6 buffer.old ++ (in_eights (totals tally) ++ drop 70 buffer.old) }
{
    let totals = to_places(tally);
    for (i, total) in totals.iter().enumerate() {
        let at = TOTALS_AT + TOTAL_WIDTH * i;
        put(&mut buffer[at..at + TOTAL_WIDTH], *total);
    }
}

// Writes the record of a tally to the first 70 places, and answers 70. A buffer that has fewer is refused, and stays as it was.
pub fn write(tally: Tally, buffer: &mut [u8]) -> Result<usize, Refusal>
    ensures { outcome (refusal_in result) (answer_or 0 result) buffer.new ≡ written tally buffer.old }
{
    if buffer.len() < RECORD {
        return Err(Refusal::NoRoom);
    }
    put(&mut buffer[..KIND_AT], REST);
    put(&mut buffer[KIND_AT..TOTALS_AT], KIND);
    put_totals(buffer, tally);
    Ok(RECORD)
}

// The tally that a record holds. Refused where the bytes are no record.
pub fn read(bytes: &[u8]) -> Result<Tally, Refusal>
    ensures { told (refusal_in result) (answer_or none result) ≡ read_as bytes.now }
{
    if !is_record(bytes) {
        return Err(Refusal::NoRecord);
    }
    Ok(from_places(totals(bytes)))
}
