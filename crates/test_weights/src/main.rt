// Asks the rows and the weights of each of the files of a table on standard input. A file ends with the byte 30. Of each it prints `rows` with number and count
// for the sections 0 to 5, three lines `weights` for lists of 64, 63 and 65 places, each with the number and the places afterwards, which held 9 before, and a
// line '.'.
#![tactic(auto)]

ghost use Rattle.std.specs.Prelude.{◌≤◌};

use numbers::told;
use rows::rows;
use test_places::{print_next, print_places};
use weights::weights;

const FILE_END: u8 = 30;

// The longest list that is lent.
const MOST: usize = 65;

// The rows of the sections 0 to 5.
fn run_rows(file: &[u8]) {
    io::write_all(1, b"rows");
    for section in 0..6 {
        let mut number: u32 = 9;
        let n = told(rows(file, section), 0, &mut number);
        print_next(number);
        print_next(n);
    }
    io::write_all(1, b"\n");
}

// The weights in a lent list.
fn weigh_into(file: &[u8], places: &mut [u32]) {
    let mut number: u32 = 9;
    told(weights(file, places), (), &mut number);
    io::write_all(1, b"weights");
    print_next(number);
    print_places(places);
}

// The weights in a list of n places.
fn run_weights(file: &[u8], n: usize)
    requires { n ≤ 65 }
{
    let mut places = [9u32; MOST];
    weigh_into(file, &mut places[..n]);
}

// Runs all files of a table, in order.
fn run_all(table: &[u8]) {
    for part in table.split_inclusive(|b| *b == FILE_END) {
        let file = part.strip_suffix(&[FILE_END]).unwrap_or(part);
        run_rows(file);
        run_weights(file, 64);
        run_weights(file, 63);
        run_weights(file, 65);
        io::write_all(1, b".\n");
    }
}

fn main() {
    let mut buffer = io::large_buffer();
    let n = io::read_full(0, &mut buffer);
    run_all(&buffer[..n]);
}
