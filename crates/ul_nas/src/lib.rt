// UL NAS TRANSPORT: the messages that the handset sends, written and read back (3GPP TS 24.501, 8.2.10).
#![tactic(auto)]

pub mod laws;
pub mod message;
pub mod read;
pub mod write;
