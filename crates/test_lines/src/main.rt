// Judges the lines of each of the files of a table on standard input, one by one. A file ends with the byte 30. For line 0, 1, 2 and so on it prints `line`, the
// line, the number and the count, and the places of a list of 10 afterwards, which held 9 before: room for two breaks and half of a third. It ends with the first
// line after 0 that is refused, or with line 23, and prints a line '.'.
#![tactic(auto)]

use judged_line::judge_line_places;
use test_places::{print_next, print_places};

const FILE_END: u8 = 30;

// The lines that are asked for, 0 to 23.
const MOST: u32 = 24;

const PLACES: usize = 10;

// What the call says of one line; whether it was refused.
fn run_line(file: &[u8], line: u32) -> bool {
    let mut places = [9u32; PLACES];
    let answer = judge_line_places(file, line, &mut places);
    io::write_all(1, b"line ");
    io::print_decimal(1, u64::from(line));
    io::write_all(1, b":");
    print_next(answer.err().map_or(0, |refusal| refusal.number()));
    print_next(answer.unwrap_or(0));
    print_places(&places);
    answer.is_err()
}

fn run_lines(file: &[u8]) {
    run_line(file, 0);
    for line in 1..MOST {
        if run_line(file, line) {
            return;
        }
    }
}

// Runs all files of a table, in order.
fn run_all(table: &[u8]) {
    for part in table.split_inclusive(|b| *b == FILE_END) {
        let file = part.strip_suffix(&[FILE_END]).unwrap_or(part);
        run_lines(file);
        io::write_all(1, b".\n");
    }
}

fn main() {
    let mut buffer = [0u8; 327680];
    let n = io::read_full(0, &mut buffer);
    run_all(&buffer[..n]);
}
