// DL NAS TRANSPORT: whatever the network sends is read.
#![tactic(auto)]

pub mod container;
pub mod content;
pub mod elements;
pub mod laws;
pub mod message;
mod part;
pub mod transport;
