// The transition table of a session: a message of the network and the state decide together.
ghost use Rattle.std.specs.Prelude.{◌≡◌};
ghost use Rattle.session.specs.Transitions.{took_effect_of, no_effect, next_state, line_outcome};

use crate::outcome::{Ended, Outcome, Reply};
use crate::state::State;

// The lines of the table. A message that none of them takes is passed over.
#[derive(Clone, Copy, PartialEq, Eq, Debug)]
pub enum Line {
    // With the waiting PTI: C2, C3; CA, CB; D2, D3.
    EstablishmentAccepted,
    EstablishmentRejected,
    ModificationRejected,
    ModificationAccepted,
    ReleaseRejected,
    ReleaseAccepted,
    // With PTI 0: CB; D3 where no request waits; D3 where one does.
    ModificationCommanded,
    ReleaseCommanded,
    RequestOvertaken,
    // The request itself, with the 5GMM cause: C1, C9, D1.
    EstablishmentReturned,
    ModificationReturned,
    ReleaseReturned,
    // C2, C3, CA, CB, D2 or D3 for a session that is INACTIVE.
    NotActive,
}

impl Outcome {
    // A message that took effect.
    fn effect(ended: Ended, reply: Option<Reply>) -> Outcome
        ensures { result ≡ took_effect_of ended reply }
    {
        Outcome {
            ended,
            took_effect: true,
            reply,
        }
    }

    // A message that did not.
    pub(crate) fn without_effect(reply: Option<Reply>) -> Outcome
        ensures { result ≡ no_effect reply }
    {
        Outcome {
            ended: Ended::Nothing,
            took_effect: false,
            reply,
        }
    }
}

impl Line {
    // The state afterwards.
    pub fn next_state(self, state: State) -> State
        ensures { result ≡ next_state self state }
    {
        match self {
            Line::EstablishmentAccepted
            | Line::ModificationRejected
            | Line::ModificationAccepted
            | Line::ReleaseRejected
            | Line::ModificationReturned
            | Line::ReleaseReturned => State::Active,
            Line::EstablishmentRejected
            | Line::ReleaseAccepted
            | Line::ReleaseCommanded
            | Line::RequestOvertaken
            | Line::EstablishmentReturned => State::Inactive,
            Line::ModificationCommanded | Line::NotActive => state,
        }
    }

    // How the request ended, and the reply.
    pub fn outcome(self) -> Outcome
        ensures { result ≡ line_outcome self }
    {
        let complete = Some(Reply::ModificationComplete);
        let released = Some(Reply::ReleaseComplete);
        match self {
            Line::EstablishmentAccepted => Outcome::effect(Ended::Accepted, None),
            Line::EstablishmentRejected => Outcome::effect(Ended::Rejected, None),
            Line::ModificationRejected => Outcome::effect(Ended::Rejected, None),
            Line::ModificationAccepted => Outcome::effect(Ended::Accepted, complete),
            Line::ReleaseRejected => Outcome::effect(Ended::Rejected, None),
            Line::ReleaseAccepted => Outcome::effect(Ended::Accepted, released),
            Line::ModificationCommanded => Outcome::effect(Ended::Nothing, complete),
            Line::ReleaseCommanded => Outcome::effect(Ended::Nothing, released),
            Line::RequestOvertaken => Outcome::effect(Ended::Overtaken, released),
            Line::EstablishmentReturned => Outcome::effect(Ended::Returned, None),
            Line::ModificationReturned => Outcome::effect(Ended::Returned, None),
            Line::ReleaseReturned => Outcome::effect(Ended::Returned, None),
            Line::NotActive => Outcome::without_effect(Some(Reply::Status)),
        }
    }
}
