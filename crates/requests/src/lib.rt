// The state of a switched-on handset, the questions that a request has to pass, and letting it out.
#![tactic(auto)]

pub mod decide;
pub mod lawful;
pub mod let_out;
pub mod network;
pub mod question;
pub mod sound;
pub mod state;
pub mod wanted;
