// The host's call that tests the timeouts, and the test, which `process` makes too.
#![tactic(auto)]

pub mod calls;
pub mod dues;
