// What a reading says, printed in words: for the run tests.
#![tactic(auto)]

use value_readings::Value;

const OUT: i32 = 1;

// A number with its sign.
fn signed(v: i64) {
    if v < 0 {
        io::write_all(OUT, b"-");
    }
    io::print_decimal(OUT, v.unsigned_abs());
}

fn whole(v: i64) {
    io::write_all(OUT, b"whole ");
    signed(v);
}

fn decimal(numerals: i64, power: i32) {
    io::write_all(OUT, b"decimal ");
    signed(numerals);
    io::write_all(OUT, b" ");
    signed(i64::from(power));
}

// What has no number.
fn word(text: &[u8]) {
    io::write_all(OUT, text);
}

// Prints a value: missing, whole V, decimal NUMERALS POWER, infinite, nan, long or text.
pub fn tell(value: Value) {
    match value {
        Value::Missing => word(b"missing"),
        Value::Whole(n) => whole(n),
        Value::Decimal {
            numerals,
            power,
            ..
        } => decimal(numerals, power),
        Value::Infinite => word(b"infinite"),
        Value::NotANumber => word(b"nan"),
        Value::LongDecimal => word(b"long"),
        Value::Text => word(b"text"),
    }
}
