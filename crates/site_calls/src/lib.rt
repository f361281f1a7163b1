// The calls' arguments from a case's bytes, and whether the program can take them. What lies past a case's end reads as 0.
#![tactic(auto)]

pub mod arguments;
pub mod configs;
pub mod limits;
