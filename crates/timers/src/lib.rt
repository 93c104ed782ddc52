// The back-off timers T3396, T3584 and T3585 of a handset, each kind in a table of its own.
#![tactic(auto)]

pub mod timers;
