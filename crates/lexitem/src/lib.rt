// The record over all kinds, the answer that holds it, and what goes by the kind: its reader, its rows and what it asks of its line.
#![tactic(auto)]

pub mod answer;
pub mod bound;
pub mod fault;
pub mod item;
pub mod read;
