// What a back-off timer is kept on: names, slices and networks, and the three keys made of them.
#![tactic(auto)]

pub mod card;
pub mod key;
pub mod name;
pub mod network;
pub mod parts;
pub mod refusal;
pub mod slice;
