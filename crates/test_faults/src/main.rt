// Judges each of the files of a table on standard input over lent records, and prints it as judges_run prints what the plain places give: both have the same
// table, and the same stored output. A file ends with the byte 30.
#![tactic(auto)]

ghost use Rattle.std.specs.Prelude.{◌≡◌, replicate};
ghost use Rattle.faults.specs.Records.{judged};
ghost use Rattle.fault_steps.specs.Steps.{fault};

use fault_steps::Fault;
use faults::judge;
use judge_report::{print_break, print_count};

const FILE_END: u8 = 30;

// A list of records, as the judging call leaves it, and the count that it answers.
fn listed(file: &[u8]) -> ([Fault; 4096], u32)
    ensures value { result.0 ≡ (judged file.now (replicate 4096 (fault 0 0 0 0))).faults }
    ensures count { result.1 ≡ (judged file.now (replicate 4096 (fault 0 0 0 0))).count }
{
    let mut list = [Fault {
        rule: 0,
        line: 0,
        cell: 0,
        first: 0,
    }; 4096];
    let count = judge(file, &mut list).unwrap_or(0);
    (list, count)
}

// The first records of a list of `count`, in order.
fn print_records(list: &[Fault], count: usize) {
    for fault in list.iter().take(count) {
        print_break(fault.line, fault.cell, fault.rule, fault.first);
    }
}

// Prints what the judging call over records gives of the file.
fn print_listed(file: &[u8]) {
    let (list, count) = listed(file);
    print_count(count);
    print_records(&list, count as usize);
}

// Judges all files of a table, in order.
fn run_all(table: &[u8]) {
    for part in table.split_inclusive(|b| *b == FILE_END) {
        let file = part.strip_suffix(&[FILE_END]).unwrap_or(part);
        print_listed(file);
        io::write_all(1, b".\n");
    }
}

fn main() {
    let mut buffer = [0u8; 327680];
    let n = io::read_full(0, &mut buffer);
    run_all(&buffer[..n]);
}
