// The eight worked cases, together the contract of one function.
#![tactic(auto)]

ghost use Rattle.worked.specs.Cases.{WorkedCases};

// What the rules give in each of the eight cases.
pub fn worked_cases()
    ensures { WorkedCases }
{}
