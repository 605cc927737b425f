// DBREF, DBREF1 and DBREF2: the records with their columns, their readers and their rows.
#![tactic(auto)]

pub mod read;
pub mod record;
pub mod rows;
