// The coordinator's state as a struct of fixed places, beside a lent store.
#![tactic(auto)]

pub mod answers;
pub mod counts;
pub mod fields;
pub mod places;
pub mod replaced;
