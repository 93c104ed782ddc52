// The state of a session (TS 24.501, 6.1.3.2), and the request that waits in a pending one.
ghost use Rattle.std.specs.Prelude.{◌≡◌};
ghost use Rattle.session.specs.State.{new_request, asked, unasked, waiting_of};

// A waiting request: its PTI, the seconds left of the 16 of T3580, T3581 or T3582, and how often these expired.
#[derive(Clone, Copy, PartialEq, Eq, Debug)]
pub struct Waiting {
    pub pti: u8,
    pub left: u8,
    pub expiries: u8,
}

#[derive(Clone, Copy, PartialEq, Eq, Debug)]
pub enum State {
    Inactive,
    ActivePending(Waiting),
    Active,
    ModificationPending(Waiting),
    InactivePending(Waiting),
}

impl Waiting {
    // A request that leaves now.
    pub fn new(pti: u8) -> Waiting
        ensures { result ≡ new_request pti }
    {
        Waiting {
            pti,
            left: 16,
            expiries: 0,
        }
    }

    // Whether a PTI is the waiting one.
    pub(crate) fn is_asked(self, pti: u8) -> bool
        ensures { result ≡ asked self pti }
    {
        pti == self.pti
    }

    // Whether a PTI is 0, which no request has: the network began by itself.
    pub(crate) fn is_unasked(self, pti: u8) -> bool
        ensures { result ≡ unasked self pti }
    {
        pti == 0 && pti != self.pti
    }
}

impl State {
    // The waiting request, of a pending state.
    pub(crate) fn waiting(self) -> Option<Waiting>
        ensures { result ≡ waiting_of self }
    {
        match self {
            State::ActivePending(waiting)
            | State::ModificationPending(waiting)
            | State::InactivePending(waiting) => Some(waiting),
            State::Inactive | State::Active => None,
        }
    }
}
