// Packets, read: the reader answers what a slice of bytes says as a packet, for any slice whatever. The layout is defined in the crate
// layout; the parts of a packet that the reader takes are handed out by the crate parts.
#![tactic(auto)]

pub mod reader;
