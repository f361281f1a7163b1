// A configuration as the host gives it: whether it is accepted, and how it is kept.
#![tactic(auto)]

pub mod key_set;
pub mod made;
pub mod new_config;
pub mod questions;
