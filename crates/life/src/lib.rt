// A life: a handset is commissioned and performs a script of calls.
#![tactic(auto)]

pub mod call;
pub mod live;
pub mod perform;
pub mod power;
