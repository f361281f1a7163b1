// The coordinator's arrays loaded from bytes, each element from its place.
#![tactic(auto, unfolding(state_bytes::specs::Description::description))]

pub mod arrays;
