// What a line is read by and what is held of it: columns, texts as places, faults and their bounded list, and the options. Nothing here
// copies a byte of the line.
#![tactic(auto)]

pub mod columns;
pub mod fault;
pub mod options;
pub mod text;
