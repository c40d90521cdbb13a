// Tallies each of the files of a table on standard input. A file ends with the byte 30. Of each it prints three lines: the number and the totals of its tally;
// the number and the totals of the sum of that tally and the one that its record is read as; and the record in hexadecimal digits.
#![tactic(auto)]

use numbers::told;
use tally::{Tally, add, nothing, to_places};
use tally_files::tally;
use tally_records::{RECORD, read, write};

const FILE_END: u8 = 30;

fn print_total(n: u64) {
    io::write_all(1, b" ");
    io::print_decimal(1, n);
}

// A number and a tally, on a line.
fn print_tally(number: u32, t: Tally) {
    io::print_decimal(1, u64::from(number));
    for total in &to_places(t) {
        print_total(*total);
    }
    io::write_all(1, b"\n");
}

// The digit of a byte's low half.
fn digit(b: u8) -> u8 {
    let d = b % 16;
    if d < 10 { b'0' + d } else { b'a' + (d - 10) }
}

// Bytes in hexadecimal digits, on a line.
fn print_bytes(bytes: &[u8]) {
    for b in bytes {
        let pair = [digit(b / 16), digit(*b)];
        io::write_all(1, &pair);
    }
    io::write_all(1, b"\n");
}

// The three lines of a file.
fn run(file: &[u8]) {
    let mut number: u32 = 9;
    let t = told(tally(file), nothing(), &mut number);
    print_tally(number, t);
    let mut record = [9u8; RECORD];
    told(write(t, &mut record), 0, &mut number);
    let again = told(read(&record), nothing(), &mut number);
    let sum = told(add(t, again), nothing(), &mut number);
    print_tally(number, sum);
    print_bytes(&record);
}

// Runs all files of a table, in order.
fn run_all(table: &[u8]) {
    for part in table.split_inclusive(|b| *b == FILE_END) {
        run(part.strip_suffix(&[FILE_END]).unwrap_or(part));
    }
}

fn main() {
    let mut buffer = [0u8; 327680];
    let n = io::read_full(0, &mut buffer);
    run_all(&buffer[..n]);
}
