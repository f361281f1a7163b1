// A signing round begins: `start_signing_round`, and `request_nonces`, which retries share with it.
#![tactic(auto)]

pub mod naming;
pub mod nonces;
pub mod rounds;
