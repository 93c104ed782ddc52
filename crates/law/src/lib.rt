// The law that every life of a handset keeps, the contract of a function.
#![tactic(auto)]

ghost use Rattle.law.specs.Law.{EveryLife};

// At every moment of every life, bars, messages let out, the tally and the ends of requests are as the law says.
pub fn every_life_keeps_the_law()
    ensures { EveryLife }
{}
