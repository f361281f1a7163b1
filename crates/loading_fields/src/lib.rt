// The coordinator's numbers and flags loaded from bytes: the structs of them, each field from its place.
#![tactic(auto, unfolding(state_bytes::specs::Description::description))]

pub mod fields;
