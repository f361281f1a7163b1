// Calls that change few fields and write no packet: the two held keys, the move question, the aggregator's answer, `reset`.
#![tactic(auto)]

pub mod aggregator;
pub mod held_keys;
pub mod moves;
pub mod resets;
