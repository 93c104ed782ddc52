// The messages that a session sends: its waiting request, and the reply to a message of the network.
ghost use Rattle.std.specs.Prelude.{◌≡◌, length};
ghost use Rattle.std.specs.Option.{option_map};
ghost use Rattle.ul_nas.specs.declared.message.Content.TheVariants.{EstablishmentRequest};
ghost use Rattle.ul_nas.specs.Message.{carried};
ghost use Rattle.ul_nas.specs.Writing.{write_answer, buffer_after};
ghost use Rattle.session.specs.declared.messages.PendingRefusal.TheVariants.{NotWritten};
ghost use Rattle.session.specs.Session.{session_view};
ghost use Rattle.session.specs.Messages.{present, pending_message, pending_answer, pending_buffer, pending_refusal_number, establishment_carried, pending_content, reply_carried, reply_message};

use crate::outcome::Reply;
use crate::session::Session;
use crate::state::State;
use ul_nas::message::{Content, Establishment, UplinkMessage};
use ul_nas::write::{WriteRefusal, write};

// Why the message of a waiting request is not written: none waits, or the writer refuses.
#[derive(Clone, Copy, PartialEq, Debug)]
pub enum PendingRefusal {
    NotPending,
    NotWritten(WriteRefusal),
}

impl From<WriteRefusal> for PendingRefusal {
    ghost from_gives = { λ x y. y ≡ NotWritten x };

    fn from(refusal: WriteRefusal) -> PendingRefusal {
        PendingRefusal::NotWritten(refusal)
    }
}

impl PendingRefusal {
    // The number of the question that refuses, where there is one.
    pub fn number(&self) -> Option<u8>
        ensures { result ≡ pending_refusal_number self.now }
    {
        match *self {
            PendingRefusal::NotPending => None,
            PendingRefusal::NotWritten(refusal) => refusal.number(),
        }
    }
}

// The octets of a part that is there.
fn present(octets: &[u8]) -> Option<&[u8]>
    ensures { option_map (λ x. x.now) result ≡ present octets.now }
{
    match octets {
        [] => None,
        _ => Some(octets),
    }
}

// CC, D4 or D6.
fn reply_content(reply: Reply) -> Content<'static>
    ensures { carried result ≡ reply_carried reply }
{
    match reply {
        Reply::ModificationComplete => Content::ModificationComplete,
        Reply::ReleaseComplete => Content::ReleaseComplete,
        Reply::Status => Content::Status,
    }
}

impl Session {
    // What the establishment request of the session asks for.
    fn establishment(&self) -> Establishment<'_>
        ensures { carried (EstablishmentRequest result) ≡ establishment_carried (session_view self.now) }
    {
        Establishment {
            request_type: self.request_type,
            slice: present(self.parts.slice.octets()),
            name: present(self.parts.name.octets()),
        }
    }

    // The waiting request: its PTI, and C1, C9 or D1.
    fn pending_content(&self) -> Option<(u8, Content<'_>)>
        ensures { option_map (λ x. (x.0, carried x.1)) result ≡ pending_content (session_view self.now) }
    {
        match self.state {
            State::ActivePending(waiting) => Some((
                waiting.pti,
                Content::EstablishmentRequest(self.establishment()),
            )),
            State::ModificationPending(waiting) => Some((
                waiting.pti,
                Content::ModificationRequest,
            )),
            State::InactivePending(waiting) => Some((waiting.pti, Content::ReleaseRequest)),
            State::Inactive | State::Active => None,
        }
    }

    // Writes the message of the waiting request: C1, C9 or D1. A refusal leaves the buffer as it was.
    pub fn write_pending(&self, identity: u8, out: &mut [u8]) -> Result<usize, PendingRefusal>
        ensures answer { result ≡ pending_answer (pending_message identity (session_view self.now)) (length out.old) }
        ensures buffer { out.new ≡ pending_buffer result (pending_message identity (session_view self.now)) out.old }
    {
        let Some((pti, content)) = self.pending_content() else {
            return Err(PendingRefusal::NotPending);
        };
        let message = UplinkMessage {
            identity,
            pti,
            content,
        };
        Ok(write(&message, out)?)
    }
}

// Writes a reply: CC, D4 or D6, with the PTI of the message that it answers.
pub fn write_reply(
    reply: Reply,
    identity: u8,
    pti: u8,
    out: &mut [u8],
) -> Result<usize, WriteRefusal>
    ensures answer { result ≡ write_answer (reply_message reply identity pti) (length out.old) }
    ensures buffer { out.new ≡ buffer_after result (reply_message reply identity pti) out.old }
{
    let message = UplinkMessage {
        identity,
        pti,
        content: reply_content(reply),
    };
    write(&message, out)
}
