// What a text says: which bytes trim leaves, and the number that stands there, as whole numbers alone. It knows no line, no column, no fault
// and no double. Every function takes a part of a line, from anywhere, and asks nothing of its caller.
#![tactic(auto)]

pub mod decimal;
pub mod trim;
pub mod whole;
pub mod wide;
pub mod word;
