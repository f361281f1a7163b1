// Bench's writers for a host that has no slices of structs: heads, lists of signers and places as structs of plain numbers.
#![tactic(auto)]

pub mod given;
pub mod responses_written;
pub mod written;
