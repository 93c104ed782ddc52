// The table of the fifteen sessions of the handset.
#![tactic(auto)]

pub mod laws;
pub mod live;
pub mod table;
