// The handset over any uplink and any keeper: switched on, and switched off.
#![tactic(auto)]

pub mod network;
pub mod off;
pub mod power;
pub mod request;
pub mod switched_on;
