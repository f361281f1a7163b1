// What the writers share: the places of lists, and the kind 2 packet that nests. It serves the crates requests, writer and job;
// a host names its types and calls none of its functions.
#![tactic(auto)]

pub mod places;
pub mod response;
