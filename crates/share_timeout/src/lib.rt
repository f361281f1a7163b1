// A share timeout that fires: every waiter is excluded, then the nonces are asked for again, or too few keys are left.
#![tactic(auto)]

pub mod exclusion;
pub mod retry;
