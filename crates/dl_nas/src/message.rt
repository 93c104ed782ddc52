// A whole message of the network: the outer layer, the payload container in it, and the identity that both name.
ghost use Rattle.std.specs.Prelude.{◌≡◌, Ok};
ghost use Rattle.dl_nas.specs.declared.message.MessageFault.TheVariants.{Transport, Container};
ghost use Rattle.dl_nas.specs.Laws.{AcceptsFormat};
ghost use Rattle.dl_nas.specs.Message.{received, agreed, number_of, layer_of, place_of, worked_received};

use crate::container::{ContainerFault, Inner, read_container};
pub use crate::content::Content;
use crate::elements::Found;
use crate::transport::{TransportFault, read_outer};

// Where a fault stands: in the outer layer, or in the payload container.
#[derive(Clone, Copy, PartialEq, Eq, Debug)]
pub enum Layer {
    Transport,
    Container,
}

// What is wrong with a message: it names number, layer and place, and carries the lower fault whole.
#[derive(Clone, Copy, PartialEq, Eq, Debug)]
pub enum MessageFault {
    // 14 to 16.
    Transport(TransportFault),
    // 15 to 17.
    Container(ContainerFault),
    // 18, is 12 there and equal to the inner identity? The place is the element's, or the message's length.
    Identity(usize),
}

impl From<TransportFault> for MessageFault {
    ghost from_gives = { λ x y. y ≡ Transport x };

    fn from(fault: TransportFault) -> MessageFault {
        MessageFault::Transport(fault)
    }
}

impl From<ContainerFault> for MessageFault {
    ghost from_gives = { λ x y. y ≡ Container x };

    fn from(fault: ContainerFault) -> MessageFault {
        MessageFault::Container(fault)
    }
}

impl MessageFault {
    // The number of the question that was answered with no.
    pub fn number(&self) -> u8
        ensures { result ≡ number_of self.now }
    {
        match *self {
            MessageFault::Transport(fault) => fault.number(),
            MessageFault::Container(fault) => fault.number(),
            MessageFault::Identity(_) => 18,
        }
    }

    // The layer of the fault; 18 is the transport's.
    pub fn layer(&self) -> Layer
        ensures { result ≡ layer_of self.now }
    {
        match *self {
            MessageFault::Transport(_) => Layer::Transport,
            MessageFault::Container(_) => Layer::Container,
            MessageFault::Identity(_) => Layer::Transport,
        }
    }

    // The place of the fault, from 0 in the whole message.
    pub fn place(&self) -> usize
        ensures { result ≡ place_of self.now }
    {
        match *self {
            MessageFault::Transport(fault) => fault.place(),
            MessageFault::Container(fault) => fault.place(),
            MessageFault::Identity(place) => place,
        }
    }
}

// A message that was read: the inner identity and PTI, the content, and the outer elements 58 (5GMM cause) and 37.
#[derive(Clone, Copy, PartialEq, Eq, Debug)]
pub struct Received {
    pub identity: u8,
    pub pti: u8,
    pub content: Content,
    pub mm_cause: Option<u8>,
    pub outer_timer: Option<u8>,
}

// Joins what the outer layer says to what the container says, if they name one identity; the message ends at `end`.
fn agree(found: Found, inner: Inner, end: usize) -> Result<Received, MessageFault>
    ensures { result ≡ agreed found inner end }
{
    let outer = found.identity.ok_or(MessageFault::Identity(end))?;
    if outer.octet != inner.identity {
        return Err(MessageFault::Identity(outer.place));
    }
    Ok(Received {
        identity: inner.identity,
        pti: inner.pti,
        content: inner.content,
        mm_cause: found.cause.map(|seen| seen.octet),
        outer_timer: found.timer.map(|seen| seen.octet),
    })
}

// Reads the layers one after the other.
fn read_layers(message: &[u8]) -> Result<Received, MessageFault>
    ensures { result ≡ received message.now }
{
    let outer = read_outer(message)?;
    let inner = read_container(outer.payload)?;
    agree(outer.found, inner, message.len())
}

// Reads whatever the network sends: the transport whole, then the container, then the identity. It answers what the
// octets mean, and it accepts exactly the messages of the format.
pub fn read(message: &[u8]) -> Result<Received, MessageFault>
    ensures answer { result ≡ received message.now }
    ensures format { AcceptsFormat message.now result }
{
    read_layers(message)
}

// Reads the worked octets of the rules: a release command with cause 1A and the timer octet A5.
pub fn read_worked_octets() -> Result<Received, MessageFault>
    ensures { result ≡ Ok worked_received }
{
    read(&[
        0x7E, 0x00, 0x68, 0x01, 0x00, 0x08, 0x2E, 0x05, 0x00, 0xD3, 0x1A, 0x37, 0x01, 0xA5, 0x12,
        0x05,
    ])
}
