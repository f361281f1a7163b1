// Taking key generation's results.
#![tactic(auto)]

pub mod ended;
pub mod results;
