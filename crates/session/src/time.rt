// Time taken off a waiting request: T3580 (establishment), T3581 (modification) and T3582 (release).
ghost use Rattle.std.specs.Prelude.{◌≡◌};
ghost use Rattle.session.specs.Session.{session_view};
ghost use Rattle.session.specs.Time.{expiry, waited, counted, counted_expiry, counted_session};

use crate::outcome::Expiry;
use crate::session::Session;
use crate::state::{State, Waiting};

impl Waiting {
    // Whether the request expires, and is then repeated or given up.
    fn expiry(self, seconds: u32) -> Expiry
        ensures { result ≡ expiry seconds self }
    {
        if seconds < u32::from(self.left) {
            Expiry::Nothing
        } else if self.expiries < 4 {
            Expiry::Repeat
        } else {
            Expiry::GiveUp
        }
    }

    // The request after some seconds, where it is not given up.
    fn waited(self, seconds: u32) -> Option<Waiting>
        ensures { result ≡ waited seconds self }
    {
        let Waiting {
            pti,
            left,
            expiries,
        } = self;
        if seconds < u32::from(left) {
            return Some(Waiting {
                pti,
                left: left - seconds as u8,
                expiries,
            });
        }
        if expiries < 4 {
            return Some(Waiting {
                pti,
                left: 16,
                expiries: expiries + 1,
            });
        }
        None
    }
}

impl State {
    // The state after some seconds: a request that is given up leaves the session inactive, or a modification active.
    fn counted(self, seconds: u32) -> State
        ensures { result ≡ counted seconds self }
    {
        match self {
            State::ActivePending(waiting) => waiting
                .waited(seconds)
                .map_or(State::Inactive, |waiting| State::ActivePending(waiting)),
            State::ModificationPending(waiting) => waiting.waited(seconds).map_or(
                State::Active,
                |waiting| State::ModificationPending(waiting),
            ),
            State::InactivePending(waiting) => waiting
                .waited(seconds)
                .map_or(State::Inactive, |waiting| State::InactivePending(waiting)),
            State::Inactive | State::Active => self,
        }
    }
}

impl Session {
    // Takes some seconds off the waiting request, and answers what becomes of it. It expires once at most.
    pub fn count(&mut self, seconds: u32) -> Expiry
        ensures answer { result ≡ counted_expiry seconds (session_view self.old).state }
        ensures after { session_view self.new ≡ counted_session seconds (session_view self.old) }
    {
        let expiry = self
            .state
            .waiting()
            .map_or(Expiry::Nothing, |waiting| waiting.expiry(seconds));
        self.state = self.state.counted(seconds);
        expiry
    }
}
