// The host of Site's test program: what it keeps between calls.
#![tactic(auto)]

pub mod host;
