// A message of the network and the state of its session decide together.
ghost use Rattle.std.specs.Prelude.{◌≡◌, not, ◌&&◌, ◌==◌};
ghost use Rattle.session.specs.State.{asked, unasked};
ghost use Rattle.session.specs.Session.{session_view};
ghost use Rattle.session.specs.Transitions.{from_network, answerable, line_of, taken_in, outcome_of};

use crate::outcome::Outcome;
use crate::session::Session;
use crate::state::{State, Waiting};
use crate::transition::Line;
use dl_nas::message::{Content, Received};

impl Waiting {
    // A message of the network with the waiting PTI.
    fn is_answer(self, message: &Received) -> bool
        ensures { result ≡ from_network message.now && asked self message.now.pti }
    {
        message.mm_cause.is_none() && self.is_asked(message.pti)
    }

    // The request itself, sent back with a 5GMM cause.
    fn is_return(self, message: &Received) -> bool
        ensures { result ≡ not (from_network message.now) && asked self message.now.pti }
    {
        message.mm_cause.is_some() && self.is_asked(message.pti)
    }

    // A message of the network with PTI 0.
    fn is_command(self, message: &Received) -> bool
        ensures { result ≡ from_network message.now && unasked self message.now.pti }
    {
        message.mm_cause.is_none() && self.is_unasked(message.pti)
    }
}

// A message of the network with PTI 0, where no request waits.
fn is_command(message: &Received) -> bool
    ensures { result ≡ from_network message.now && (message.now.pti == 0) }
{
    message.mm_cause.is_none() && message.pti == 0
}

// C2, C3, CA, CB, D2 or D3 of the network.
fn is_answerable(message: &Received) -> bool
    ensures { result ≡ answerable message.now }
{
    message.mm_cause.is_none()
        && matches!(
            message.content,
            Content::EstablishmentAccept { .. }
                | Content::EstablishmentReject { .. }
                | Content::ModificationReject { .. }
                | Content::ModificationCommand { .. }
                | Content::ReleaseReject { .. }
                | Content::ReleaseCommand { .. }
        )
}

impl Session {
    // The line of a message; none where it is passed over.
    pub fn line_of(&self, message: &Received) -> Option<Line>
        ensures { result ≡ line_of (session_view self.now).state message.now }
    {
        match (self.state, message.content) {
            (State::ActivePending(w), Content::EstablishmentAccept { .. })
                if w.is_answer(message) => Some(Line::EstablishmentAccepted),
            (State::ActivePending(w), Content::EstablishmentReject { .. })
                if w.is_answer(message) => Some(Line::EstablishmentRejected),
            (State::ModificationPending(w), Content::ModificationReject { .. })
                if w.is_answer(message) => Some(Line::ModificationRejected),
            (State::ModificationPending(w), Content::ModificationCommand { .. })
                if w.is_answer(message) => Some(Line::ModificationAccepted),
            (State::InactivePending(w), Content::ReleaseReject { .. }) if w.is_answer(message) =>
                Some(Line::ReleaseRejected),
            (State::InactivePending(w), Content::ReleaseCommand { .. }) if w.is_answer(message) =>
                Some(Line::ReleaseAccepted),
            (State::Active, Content::ModificationCommand { .. }) if is_command(message) => Some(
                Line::ModificationCommanded,
            ),
            (State::ModificationPending(w), Content::ModificationCommand { .. })
                if w.is_command(message) => Some(Line::ModificationCommanded),
            (State::Active, Content::ReleaseCommand { .. }) if is_command(message) => Some(
                Line::ReleaseCommanded,
            ),
            (
                State::ModificationPending(w) | State::InactivePending(w),
                Content::ReleaseCommand { .. },
            ) if w.is_command(message) => Some(Line::RequestOvertaken),
            (State::ActivePending(w), Content::EstablishmentRequest) if w.is_return(message) =>
                Some(Line::EstablishmentReturned),
            (State::ModificationPending(w), Content::ModificationRequest) if w.is_return(message) =>
                Some(Line::ModificationReturned),
            (State::InactivePending(w), Content::ReleaseRequest) if w.is_return(message) => Some(
                Line::ReleaseReturned,
            ),
            (State::Inactive, _) if is_answerable(message) => Some(Line::NotActive),
            _ => None,
        }
    }

    // Takes in a message of the network. Its other data stay.
    pub fn take_in(&mut self, message: &Received) -> Outcome
        ensures answer { result ≡ outcome_of (session_view self.old) message.now }
        ensures after { session_view self.new ≡ taken_in (session_view self.old) message.now }
    {
        let Some(line) = self.line_of(message) else {
            return Outcome::without_effect(None);
        };
        self.state = line.next_state(self.state);
        line.outcome()
    }
}
