// What the calls of a handset answer; the definitions beside it say what each call does.
#![tactic(auto)]

pub mod answer;
