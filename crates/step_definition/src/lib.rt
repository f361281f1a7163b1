// The signing phase of the coordinator: fire.rs when it gathers nonces and signature shares. What it must do is defined in specs/;
// the calls stand in the crates above.
#![tactic(auto)]
