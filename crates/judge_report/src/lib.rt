// What the judging call gives of a file, printed: OK, or FAULTS and the count and then line, cell, rule and first of the first 4,096 breaks.
#![tactic(auto)]

use judged::judge_places;

fn print_number(n: u32) {
    io::print_decimal(1, u64::from(n));
}

// A break: its line, cell and rule, and where what it repeats stands first, 0 for none.
pub fn print_break(line: u32, cell: u32, rule: u32, first: u32) {
    print_number(line);
    io::write_all(1, b" ");
    print_number(cell);
    io::write_all(1, b" ");
    print_number(rule);
    io::write_all(1, b" ");
    print_number(first);
    io::write_all(1, b"\n");
}

// How many breaks there are: none is OK.
pub fn print_count(count: u32) {
    if count == 0 {
        io::write_all(1, b"OK\n");
        return;
    }
    io::write_all(1, b"FAULTS ");
    print_number(count);
    io::write_all(1, b"\n");
}

// The first breaks of a list of `count`, in order, as many as have places: rule, line, cell and first.
fn print_breaks(places: &[u32], count: usize) {
    for place in places.chunks_exact(4).take(count) {
        print_break(place[1], place[2], place[0], place[3]);
    }
}

// Prints what the judging call gives of the file, each line ended by LF.
pub fn print_judged(file: &[u8]) {
    let mut places = [0u32; 16384];
    let count = judge_places(file, &mut places).unwrap_or(0);
    print_count(count);
    print_breaks(&places, count as usize);
}
