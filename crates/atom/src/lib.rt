// ATOM, HETATM and ANISOU: the records with their columns, their readers and their rows.
#![tactic(auto)]

pub mod read;
pub mod record;
pub mod rows;
