// What the host's test programs share: a script's lines, a line's case, a case's tokens, and what is printed.
#![tactic(auto)]

pub mod cases;
pub mod faults;
pub mod lines;
pub mod print;
pub mod states;
pub mod tokens;
