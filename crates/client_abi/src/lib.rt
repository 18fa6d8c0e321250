// The client's functions, exported to C: an enum comes back as a number, and a slice crosses as pointer and length.
#![tactic(auto)]

pub mod read;
pub mod write;
