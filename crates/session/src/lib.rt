// One session of the handset: its state and the decoded message of the network decide together.
#![tactic(auto)]

pub mod laws;
pub mod messages;
pub mod outcome;
pub mod session;
pub mod state;
pub mod take_in;
pub mod time;
pub mod timers;
pub mod transition;
