// The coordinator's state loaded from bytes: each field from its place.
#![tactic(auto, unfolding(state_bytes::specs::Description::description, state_bytes::specs::Description::state_for))]

pub mod states;
