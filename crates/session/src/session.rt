// A session: what it tells of itself, and requests that leave.
ghost use Rattle.std.specs.Prelude.{◌≡◌};
ghost use Rattle.keys.specs.KeyParts.{parts_view};
ghost use Rattle.ul_nas.specs.Message.{emergency};
ghost use Rattle.session.specs.declared.state.State.TheVariants.{Inactive};
ghost use Rattle.session.specs.State.{inactive, active};
ghost use Rattle.session.specs.Session.{session_view, unused, with_state, established_with, modified, released, waiting_pti};

use crate::state::{State, Waiting};
use keys::name::Name;
use keys::network::Network;
use keys::parts::KeyParts;
use keys::slice::Slice;
use ul_nas::message::RequestType;

// The request type and the parts of the keys are fixed when the establishment request leaves.
#[derive(Clone, Copy, PartialEq, Debug)]
pub struct Session {
    pub state: State,
    pub request_type: RequestType,
    pub parts: KeyParts,
}

impl Session {
    // A session that was never established.
    pub fn unused() -> Session
        ensures { session_view result ≡ unused }
    {
        Session {
            state: State::Inactive,
            request_type: RequestType::Initial,
            parts: KeyParts {
                network: Network::new([0; 3]),
                slice: Slice::absent(),
                name: Name::absent(),
            },
        }
    }

    // An establishment request leaves.
    pub fn establish(&mut self, request_type: RequestType, parts: KeyParts, pti: u8)
        ensures { session_view self.new ≡ established_with request_type (parts_view parts) pti }
    {
        self.state = State::ActivePending(Waiting::new(pti));
        self.request_type = request_type;
        self.parts = parts;
    }

    // A modification request leaves.
    pub fn modify(&mut self, pti: u8)
        ensures { session_view self.new ≡ modified pti (session_view self.old) }
    {
        self.state = State::ModificationPending(Waiting::new(pti));
    }

    // A release request leaves.
    pub fn release(&mut self, pti: u8)
        ensures { session_view self.new ≡ released pti (session_view self.old) }
    {
        self.state = State::InactivePending(Waiting::new(pti));
    }

    // The session becomes INACTIVE without a message.
    pub fn deactivate(&mut self)
        ensures { session_view self.new ≡ with_state Inactive (session_view self.old) }
    {
        self.state = State::Inactive;
    }

    pub fn is_inactive(&self) -> bool
        ensures { result ≡ inactive (session_view self.now).state }
    {
        matches!(self.state, State::Inactive)
    }

    pub fn is_active(&self) -> bool
        ensures { result ≡ active (session_view self.now).state }
    {
        matches!(self.state, State::Active)
    }

    // The PTI of the waiting request.
    pub fn waiting_pti(&self) -> Option<u8>
        ensures { result ≡ waiting_pti (session_view self.now) }
    {
        self.state.waiting().map(|waiting| waiting.pti)
    }

    // Emergency sessions have no keys.
    pub fn is_emergency(&self) -> bool
        ensures { result ≡ emergency (session_view self.now).request_type }
    {
        self.request_type.is_emergency()
    }
}
