// The kept record of a bar: 128 octets that outlive a switch-off.
#![tactic(auto)]

pub mod kept;
pub mod lawful;
mod parts;
pub mod read;
pub mod write;
