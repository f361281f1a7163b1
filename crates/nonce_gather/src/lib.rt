// NonceGather, on a response.
#![tactic(auto)]

pub mod gather;
