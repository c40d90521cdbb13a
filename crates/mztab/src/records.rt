// The records that calls give back.
use value_readings::Value;

// A cell's line and number, and what it says.
#[derive(Clone, Copy)]
pub struct Reading {
    pub line: u32,
    pub cell: u32,
    pub value: Value,
}
