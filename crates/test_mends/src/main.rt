// Mends each of the files of a table on standard input, twice: into a buffer of 4,096 bytes, and into one of 60. A file ends with the byte 30. For each it prints
// `mend`, the room, the number, the length and the count, and the places of a list of 5 afterwards, which held 9 before: room for two changes and half of a third.
// Then the copy and one byte behind it, of the small buffer all bytes: each was `#` before. A line '.' ends the file.
#![tactic(auto)]

ghost use Rattle.std.specs.Prelude.{◌≤◌};

use mender::mend;
use mender_places::Copied;
use test_places::{print_next, print_places};

const FILE_END: u8 = 30;

const PLACES: usize = 5;

// The first n bytes of a buffer, and one behind them, where it has so many.
fn print_front(buffer: &[u8], n: usize) {
    let end = buffer.len().min(n.saturating_add(1));
    io::write_all(1, &buffer[..end]);
    io::write_all(1, b"\n");
}

// Mends a file into a buffer of so many bytes, and prints what the call says and lists, and of the buffer the copy, or all.
fn run<const ROOM: usize>(file: &[u8], all: bool)
    requires { ROOM ≤ 4096 }
{
    let mut copy = [b'#'; ROOM];
    let mut places = [9u32; PLACES];
    let answer = mend(file, &mut copy, &mut places);
    let done = answer.unwrap_or(Copied { to: 0, count: 0 });
    io::write_all(1, b"mend ");
    io::print_decimal(1, ROOM as u64);
    io::write_all(1, b":");
    print_next(answer.err().map_or(0, |refusal| refusal.number()));
    io::write_all(1, b" ");
    io::print_decimal(1, done.to as u64);
    print_next(done.count);
    print_places(&places);
    print_front(&copy, if all { ROOM } else { done.to });
}

// Runs all files of a table, in order.
fn run_all(table: &[u8]) {
    for part in table.split_inclusive(|b| *b == FILE_END) {
        let file = part.strip_suffix(&[FILE_END]).unwrap_or(part);
        run::<4096>(file, false);
        run::<60>(file, true);
        io::write_all(1, b".\n");
    }
}

fn main() {
    let mut buffer = [0u8; 327680];
    let n = io::read_full(0, &mut buffer);
    run_all(&buffer[..n]);
}
