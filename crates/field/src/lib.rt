// One column field of a line, in two ways: its value and whether it is fine, or its value beside the list of faults, which goes
// through by value and has the field's fault noted if the field isn't fine.
#![tactic(auto)]

pub mod charge;
mod found;
pub mod number_field;
pub mod quick;
pub mod remark;
pub mod text_field;
