// What nonce gathering and share gathering ask of a response's lists: valid nonces, and a key list that equals a key set.
#![tactic(auto)]

pub mod ids;
pub mod keys;
pub mod nonces;
