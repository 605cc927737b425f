// SCALEn, ORIGXn and MTRIXn: the records with their columns, their readers and their rows.
#![tactic(auto)]

pub mod read;
pub mod record;
pub mod rows;
