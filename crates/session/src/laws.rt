// The laws of the transition table and of time, each the contract of a function.
ghost use Rattle.session.specs.Laws.{ExactlyOne, InactiveStays, OnlyEffectMoves, EndsTold, FiveExpiries};

// To every state and message exactly one case applies.
pub fn one_case_applies()
    ensures { ExactlyOne }
{}

// No message leaves INACTIVE.
pub fn inactive_stays()
    ensures { InactiveStays }
{}

// A message that took no effect changes no state.
pub fn only_effect_moves()
    ensures { OnlyEffectMoves }
{}

// A request is told to have ended exactly where it waited before and waits no more.
pub fn ends_are_told()
    ensures { EndsTold }
{}

// A request is given up at the fifth reading of 16 seconds or more, and not before.
pub fn given_up_at_the_fifth()
    ensures { FiveExpiries }
{}
