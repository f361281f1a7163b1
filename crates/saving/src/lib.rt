// The coordinator's state saved as bytes: each field at its place, one after the other.
#![tactic(auto, unfolding(state_bytes::specs::Description::description))]

pub mod states;
