// Judges the file on standard input: OK, or FAULTS with the breaks; TOO LONG beyond 65,536 bytes.
#![tactic(auto)]

use judge_report::print_judged;

// What the program takes of standard input.
const MOST: usize = 65536;

fn main() {
    let mut buffer = [0u8; 65537];
    let n = io::read_full(0, &mut buffer);
    if MOST < n {
        io::write_all(1, b"TOO LONG\n");
        return;
    }
    print_judged(&buffer[..n]);
}
