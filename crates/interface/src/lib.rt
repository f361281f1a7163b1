// What crosses to C: answers and configurations as structs of plain numbers, and the state as bytes that a call keeps.
#![tactic(auto, unfolding(crate::specs::Configs::reading_of, crate::specs::Configs::signer_of, crate::specs::Configs::timeouts_of, crate::specs::Configs::config_of, crate::specs::Answers::flat, state_bytes::specs::Loaded::loaded))]

pub mod answers;
pub mod configs;
pub mod kept;
pub mod loads;
