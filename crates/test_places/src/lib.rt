// Numbers as run tests print them, each with a space before it.
#![tactic(auto)]

pub fn print_next(n: u32) {
    io::write_all(1, b" ");
    io::print_decimal(1, u64::from(n));
}

// The places of a list, and the end of the line.
pub fn print_places(places: &[u32]) {
    for place in places {
        print_next(*place);
    }
    io::write_all(1, b"\n");
}
