// Adds and splits amounts as the lines of a table on standard input ask, and prints what is given back. `add A B`: the number and the sum. `split FEE PLACES W1
// W2 ..`: the number, and each of the lent places afterwards, which held 7 before. At most 70 weights and 70 places. A split into 64 places is run over
// `Cents` too, and its line ends with ` DIFFERENT` where the two do not agree.
#![tactic(auto)]

ghost use Rattle.std.specs.Prelude.{◌≡◌, ◌≤◌, length, replicate};
ghost use Rattle.fee.specs.Places.{cents};
ghost use Rattle.fee.specs.Split.{split_of};

use fee::{Cents, split_places};
use numbers::told;
use test_fields::{next_field, number_at, short_at};
use text::lines::line_at;
use text_bytes::begins_with;

// How many weights and places there can be.
const MOST: usize = 70;

// How many places there are where both splits are run.
const LISTED: usize = 64;

fn print_next(n: u64) {
    io::write_all(1, b" ");
    io::print_decimal(1, n);
}

// Adds the two amounts from `at` on.
fn run_add(line: &[u8], at: usize)
    requires { at ≤ length line.now }
{
    let second = next_field(line, at);
    let a = Cents(number_at(line, at));
    let b = Cents(number_at(line, second));
    let mut number: u32 = 9;
    let sum = told(a.add(b), Cents::ZERO, &mut number);
    io::print_decimal(1, u64::from(number));
    print_next(sum.0);
}

// The weights from `from` on, and how many there are.
fn read_weights(line: &[u8], from: usize, weights: &mut [u32]) -> usize
    requires { from ≤ length line.now }
    ensures { result ≤ length weights.old }
{
    let mut at = from;
    for (n, weight) in weights.iter_mut().enumerate() {
        if at == line.len() {
            return n;
        }
        *weight = short_at(line, at);
        at = next_field(line, at);
    }
    weights.len()
}

fn print_places(places: &[u64]) {
    for place in places {
        print_next(*place);
    }
}

// A list of 64 amounts, each 7 before, as the split over `Cents` leaves it, and the number that a host is told.
fn listed(fee: Cents, weights: &[u32]) -> ([Cents; 64], u32)
    ensures value { result.0 ≡ (split_of cents fee.0 weights.now (replicate 64 (record { 0 = 7 }))).shares }
    ensures number_value { result.1 ≡ (split_of cents fee.0 weights.now (replicate 64 (record { 0 = 7 }))).number }
{
    let mut list = [Cents(7); 64];
    let mut number: u32 = 9;
    told(fee.split(weights, &mut list), (), &mut number);
    (list, number)
}

// Whether the places hold the amounts of the list.
fn same_amounts(list: &[Cents; 64], places: &[u64]) -> bool {
    list.iter()
        .zip(places)
        .all(|(amount, place)| amount.0 == *place)
}

// Says so where the split over `Cents` gives another number, or leaves another amount.
fn compare(fee: u64, weights: &[u32], places: &[u64], number: u32) {
    let (list, other) = listed(Cents(fee), weights);
    if (other != number) | !same_amounts(&list, places) {
        io::write_all(1, b" DIFFERENT");
    }
}

// Splits a fee into the places, and prints them; where there are 64, over `Cents` too.
fn split_into(fee: u64, weights: &[u32], shares: &mut [u64]) {
    let mut number: u32 = 9;
    told(split_places(fee, weights, shares), (), &mut number);
    io::print_decimal(1, u64::from(number));
    print_places(shares);
    if shares.len() == LISTED {
        compare(fee, weights, shares, number);
    }
}

// Splits a fee into so many places, at most 70.
fn split(fee: u64, weights: &[u32], places: u32) {
    let mut shares = [7u64; MOST];
    let k = places as usize;
    if MOST < k {
        return;
    }
    split_into(fee, weights, &mut shares[..k]);
}

// Splits the fee at `at` over the weights that follow it and the number of places.
fn run_split(line: &[u8], at: usize)
    requires { at ≤ length line.now }
{
    let second = next_field(line, at);
    let third = next_field(line, second);
    let mut weights = [0u32; MOST];
    let n = read_weights(line, third, &mut weights);
    split(number_at(line, at), &weights[..n], short_at(line, second));
}

fn run_line(line: &[u8]) {
    let at = next_field(line, 0);
    if begins_with(b"add", line) {
        run_add(line, at);
    } else {
        run_split(line, at);
    }
    io::write_all(1, b"\n");
}

// Runs all lines of a table, in order.
fn run_all(table: &[u8]) {
    let mut at = 0;
    while at < table.len() {
        let line = line_at(table, at);
        let end = line.end;
        run_line(&table[at..end]);
        at = line.next;
    }
}

fn main() {
    let mut buffer = io::large_buffer();
    let n = io::read_full(0, &mut buffer);
    run_all(&buffer[..n]);
}
