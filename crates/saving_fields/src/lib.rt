// The coordinator's numbers and flags saved as bytes: the structs of them, one field after the other.
#![tactic(auto, unfolding(state_bytes::specs::Description::description))]

pub mod fields;
