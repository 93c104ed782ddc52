// The law of the PTIs, the contract of a function.
ghost use Rattle.sessions.specs.Laws.{StayDifferent};

// The PTIs of the waiting requests stay different while each request leaves with the next PTI.
pub fn ptis_stay_different()
    ensures { StayDifferent }
{}
