// What a signer sends: the nonce response (kind 2) and the signature share response (kind 4), from plain fields and lists. The lent
// buffer may be as short as the packet.
#![tactic(auto)]

pub mod lists;
pub mod nonces;
pub mod shares;
