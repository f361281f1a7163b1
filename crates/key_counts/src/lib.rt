// The keys of the signers' key sets, counted.
#![tactic(auto)]

pub mod counts;
pub mod keys;
