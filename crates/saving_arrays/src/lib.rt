// The coordinator's arrays saved as bytes, one element after the other.
#![tactic(auto, unfolding(state_bytes::specs::Description::description))]

pub mod arrays;
