// MODEL: the record with its columns, its reader and its rows.
#![tactic(auto)]

pub mod read;
pub mod record;
pub mod rows;
