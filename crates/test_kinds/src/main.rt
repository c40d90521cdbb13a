// Answers of the kinds for each line of standard input, for comparison with another implementation.
// A line is what LF ends, its CR with it; a last one without LF counts if it is not empty.
#![tactic(auto)]

use test_telling::tell;
use value_parameters::{is_parameter, is_parameters};
use value_readings::read;
use value_references::{reference, references};
use values::{is_decimal, is_decimals, is_text, is_whole, is_window};

const LF: u8 = 10;

const OUT: i32 = 1;

fn flag(yes: bool) {
    io::write_all(OUT, if yes { b"1" } else { b"0" });
}

fn space() {
    io::write_all(OUT, b" ");
}

fn kinds_of(s: &[u8]) {
    flag(is_text(s));
    flag(is_whole(s));
    flag(is_decimal(s));
    flag(is_decimals(s));
    flag(is_window(s));
    flag(is_parameter(s));
    flag(is_parameters(s));
}

fn index(word: &[u8], s: &[u8]) {
    space();
    io::print_decimal(OUT, reference(word, s) as u64);
}

fn list(word: &[u8], s: &[u8]) {
    let r = references(word, s);
    flag(r.good);
}

fn references_of(s: &[u8]) {
    index(b"sample", s);
    index(b"assay", s);
    index(b"study_variable", s);
    index(b"ms_run", s);
    space();
    list(b"sample", s);
    list(b"assay", s);
    list(b"study_variable", s);
    list(b"ms_run", s);
    space();
}

fn line(s: &[u8]) {
    kinds_of(s);
    references_of(s);
    tell(read(s));
    io::write_all(OUT, b"\n");
}

fn lines(s: &[u8]) {
    for part in s.split_inclusive(|b| *b == LF) {
        line(part.strip_suffix(&[LF]).unwrap_or(part));
    }
}

fn main() {
    let mut buf = io::large_buffer();
    let n = io::read_full(0, &mut buf);
    lines(&buf[..n]);
}
