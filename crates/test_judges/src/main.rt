// Judges each of the files of a table on standard input, and prints what the program `judge` would, with a line '.' after each. A file ends with the
// byte 30.
#![tactic(auto)]

use judge_report::print_judged;

const FILE_END: u8 = 30;

// Judges all files of a table, in order.
fn run_all(table: &[u8]) {
    for part in table.split_inclusive(|b| *b == FILE_END) {
        let file = part.strip_suffix(&[FILE_END]).unwrap_or(part);
        print_judged(file);
        io::write_all(1, b".\n");
    }
}

fn main() {
    let mut buffer = [0u8; 327680];
    let n = io::read_full(0, &mut buffer);
    run_all(&buffer[..n]);
}
