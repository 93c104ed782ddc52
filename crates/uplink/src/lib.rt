// The uplink: the messages of the handset that wait for the network, oldest first.
#![tactic(auto)]

pub mod alike;
pub mod line;
pub mod queue;
pub mod refusal;
pub mod slots;
