// The law of a time reading, the contract of a function.
ghost use Rattle.readings.specs.Laws.{TurnByTurn};

// What a session's turn does depends on its own record and on how many messages wait when it comes.
pub fn turn_by_turn()
    ensures { TurnByTurn }
{}
