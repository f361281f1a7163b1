// What the test program for Site prints of a call: its answer, the packet that it wrote, and the coordinator that it left.
#![tactic(auto)]

pub mod answers;
pub mod packets;
pub mod states;
