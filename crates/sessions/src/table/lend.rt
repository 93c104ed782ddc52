// One session of the table acts; the others stay. For 0 and from 16 up no session acts.
ghost use Rattle.std.specs.Prelude.{◌≡◌, length};
ghost use Rattle.std.specs.Option.{option_map};
ghost use Rattle.keys.specs.KeyParts.{parts_view};
ghost use Rattle.std.specs.Fn.{FnOnceReturnsAtMut};
ghost use Rattle.session.specs.declared.session.Session.{Session as a_session};
ghost use Rattle.session.specs.Session.{SessionView, session_view, established_with, modified, released};
ghost use Rattle.session.specs.Transitions.{taken_in, outcome_of};
ghost use Rattle.session.specs.Time.{counted_session};
ghost use Rattle.session.specs.Messages.{pending_answer, pending_buffer};
ghost use Rattle.sessions.specs.Table.{sessions_view, session_of, changed};
ghost use Rattle.sessions.specs.Acts.{expiry_of, message_of};

use super::Sessions;
use super::ask::place_of;
use dl_nas::message::Received;
use keys::parts::KeyParts;
use session::messages::PendingRefusal;
use session::outcome::{Expiry, Outcome};
use session::session::Session;
use ul_nas::message::RequestType;

impl Sessions {
    // A session acts, and what it answers is answered. Where the answer is told by the session, and the session goes by a rule,
    // so does the table.
    fn act<R, F: FnOnce(&mut Session) -> R>(&mut self, identity: u8, act: F) -> Option<R>
        requires { F.IsAlwaysCallable act }
        ensures answer { (tell : SessionView → R) → ((s s' : a_session) (r : R) → FnOnceReturnsAtMut F.FnOnce act s r s' → r ≡ tell (session_view s)) → result ≡ option_map tell (session_of identity (sessions_view self.old)) }
        ensures after { (rule : SessionView → SessionView) → ((s s' : a_session) (r : R) → FnOnceReturnsAtMut F.FnOnce act s r s' → session_view s' ≡ rule (session_view s)) → sessions_view self.new ≡ changed identity rule (sessions_view self.old) }
    {
        let place = place_of(identity)?;
        let mut session = self.records[place];
        let answer = act(&mut session);
        self.records[place] = session;
        Some(answer)
    }

    // A message of the network is taken in.
    pub fn take_in(&mut self, identity: u8, message: &Received) -> Option<Outcome>
        ensures answer { result ≡ option_map (λ v. outcome_of v message.now) (session_of identity (sessions_view self.old)) }
        ensures after { sessions_view self.new ≡ changed identity (λ v. taken_in v message.now) (sessions_view self.old) }
    {
        self.act(identity, |session| session.take_in(message))
    }

    // An establishment request leaves.
    pub fn establish(&mut self, identity: u8, request_type: RequestType, parts: KeyParts, pti: u8)
        ensures { sessions_view self.new ≡ changed identity (λ _. established_with request_type (parts_view parts) pti) (sessions_view self.old) }
    {
        self.act(
            identity,
            |session| session.establish(request_type, parts, pti),
        );
    }

    // A modification request leaves.
    pub fn modify(&mut self, identity: u8, pti: u8)
        ensures { sessions_view self.new ≡ changed identity (modified pti) (sessions_view self.old) }
    {
        self.act(identity, |session| session.modify(pti));
    }

    // A release request leaves.
    pub fn release(&mut self, identity: u8, pti: u8)
        ensures { sessions_view self.new ≡ changed identity (released pti) (sessions_view self.old) }
    {
        self.act(identity, |session| session.release(pti));
    }

    // Takes some seconds off the waiting request, and answers what becomes of it.
    pub fn count(&mut self, identity: u8, seconds: u32) -> Expiry
        ensures answer { result ≡ expiry_of seconds (session_of identity (sessions_view self.old)) }
        ensures after { sessions_view self.new ≡ changed identity (counted_session seconds) (sessions_view self.old) }
    {
        self.act(identity, |session| session.count(seconds))
            .unwrap_or(Expiry::Nothing)
    }

    // Writes the message of the waiting request. A refusal leaves the buffer as it was.
    pub fn write_pending(&self, identity: u8, out: &mut [u8]) -> Result<usize, PendingRefusal>
        ensures answer { result ≡ pending_answer (message_of identity (session_of identity (sessions_view self.now))) (length out.old) }
        ensures buffer { out.new ≡ pending_buffer result (message_of identity (session_of identity (sessions_view self.now))) out.old }
    {
        let place = place_of(identity).ok_or(PendingRefusal::NotPending)?;
        self.records[place].write_pending(identity, out)
    }
}
