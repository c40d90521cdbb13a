// What each case of a reading is to a host: its number, and the values that it carries.
#![tactic(auto)]

ghost use Rattle.std.specs.Prelude.{◌≡◌};
ghost use Rattle.value_readings.specs.Reading.{number_of, whole_of, power_of, double_of};

use value_readings::Value;

// 0 missing, 1 whole, 2 decimal, 3 infinite, 4 not a number, 5 long decimal, 6 text.
pub fn number_of(value: Value) -> u32
    ensures { result ≡ number_of value }
{
    match value {
        Value::Missing => 0,
        Value::Whole(_) => 1,
        Value::Decimal { .. } => 2,
        Value::Infinite => 3,
        Value::NotANumber => 4,
        Value::LongDecimal => 5,
        Value::Text => 6,
    }
}

// The value of a whole, the signed numerals of a decimal, 0 for any other.
pub fn whole_of(value: Value) -> i64
    ensures { result ≡ whole_of value }
{
    match value {
        Value::Whole(n) => n,
        Value::Decimal { numerals, .. } => numerals,
        _ => 0,
    }
}

// The power of ten of a decimal, 0 for any other.
pub fn power_of(value: Value) -> i32
    ensures { result ≡ power_of value }
{
    match value {
        Value::Decimal { power, .. } => power,
        _ => 0,
    }
}

// The double of a decimal, 0.0 for any other.
pub fn double_of(value: Value) -> f64
    ensures { result ≡ double_of value }
{
    match value {
        Value::Decimal { double, .. } => double,
        _ => 0.0,
    }
}
