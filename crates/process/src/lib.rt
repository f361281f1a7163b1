// `process` and `process_message`: the two calls that bring a packet.
#![tactic(auto)]

pub mod packets;
