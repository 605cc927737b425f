// The lines that are written, one function for each family of records, over numbers and lent texts.
#![tactic(auto)]

pub mod atoms;
pub mod bare;
mod places;
pub mod rows;
pub mod unit_cell;
