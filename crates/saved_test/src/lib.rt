// Whether a save left bytes: only flags, codes and constants can be other than a save leaves them, so only these are looked at.
#![tactic(auto, unfolding(state_bytes::specs::Description::description))]

pub mod states;
pub mod strides;
