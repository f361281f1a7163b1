// A message by the coordinator's state, and whether a packet's signature has been verified.
#![tactic(auto)]

pub mod phases;
pub mod states;
pub mod verified;
