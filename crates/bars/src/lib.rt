// Bars: back-off timers on keys, and the table of the bars of one kind.
#![tactic(auto)]

pub mod bar;
pub mod claimed;
mod retime;
pub mod table;
