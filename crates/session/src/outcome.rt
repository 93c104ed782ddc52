// What a message of the network does to a session, and what time does.

// How the waiting request ended.
#[derive(Clone, Copy, PartialEq, Eq, Debug)]
pub enum Ended {
    Accepted,
    Rejected,
    Returned,
    Overtaken,
    Nothing,
}

// The message that answers: CC, D4 or D6.
#[derive(Clone, Copy, PartialEq, Eq, Debug)]
pub enum Reply {
    ModificationComplete,
    ReleaseComplete,
    Status,
}

#[derive(Clone, Copy, PartialEq, Eq, Debug)]
pub struct Outcome {
    pub ended: Ended,
    pub took_effect: bool,
    pub reply: Option<Reply>,
}

// What becomes of a waiting request by time: it is repeated, given up, or neither.
#[derive(Clone, Copy, PartialEq, Eq, Debug)]
pub enum Expiry {
    Nothing,
    Repeat,
    GiveUp,
}
