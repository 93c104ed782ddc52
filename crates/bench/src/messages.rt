// Messages told in words.
use dl_nas::message::{Layer, MessageFault, Received};
use script::hex::Capitals;
use std::io::Write;
use std::{fmt, io};
use ul_nas::message::{Content, UplinkMessage};

// An octet that may be absent.
fn optional_hex<W: fmt::Write>(
    f: &mut fmt::Formatter<W>,
    before: &str,
    octet: Option<u8>,
) -> fmt::Result {
    match octet {
        Some(octet) => write!(f, "{before}{octet:02X}"),
        None => Ok(()),
    }
}

// A message of the network: its type, identity and PTI, and the causes and timer octets that are there.
#[derive(Clone, Copy)]
pub struct NetworkMessage {
    pub received: Received,
}

impl fmt::Display for NetworkMessage {
    fn fmt<W: fmt::Write>(&self, f: &mut fmt::Formatter<W>) -> fmt::Result {
        let identity = self.received.identity;
        let pti = self.received.pti;
        let content = self.received.content;
        let message_type = content.message_type();
        write!(
            f,
            "network {message_type:02X} identity {identity} PTI {pti}"
        )?;
        optional_hex(f, " cause ", content.cause())?;
        optional_hex(f, " timer ", content.timer())?;
        optional_hex(f, " 5GMM ", self.received.mm_cause)?;
        optional_hex(f, " outer timer ", self.received.outer_timer)
    }
}

// Where a message of the network is at fault.
#[derive(Clone, Copy)]
pub struct Fault {
    pub fault: MessageFault,
}

impl fmt::Display for Fault {
    fn fmt<W: fmt::Write>(&self, f: &mut fmt::Formatter<W>) -> fmt::Result {
        let number = self.fault.number();
        let place = self.fault.place();
        let layer = match self.fault.layer() {
            Layer::Transport => "transport",
            Layer::Container => "container",
        };
        write!(f, "refused {number} in the {layer} at {place}")
    }
}

// A message of the handset: its type, identity and PTI, and the request type, slice and name that are there.
#[derive(Clone, Copy)]
pub struct HandsetMessage<'a> {
    pub message: UplinkMessage<'a>,
}

impl fmt::Display for HandsetMessage<'_> {
    fn fmt<W: fmt::Write>(&self, f: &mut fmt::Formatter<W>) -> fmt::Result {
        let identity = self.message.identity;
        let pti = self.message.pti;
        let message_type = self.message.content.message_type();
        write!(
            f,
            "handset {message_type:02X} identity {identity} PTI {pti}"
        )?;
        let Content::EstablishmentRequest(request) = self.message.content else {
            return Ok(());
        };
        let number = request.request_type.number();
        write!(f, " type {number}")?;
        if let Some(slice) = request.slice {
            let digits = Capitals { octets: slice };
            write!(f, " slice {digits}")?;
        }
        if let Some(name) = request.name {
            let digits = Capitals { octets: name };
            write!(f, " name {digits}")?;
        }
        Ok(())
    }
}

// Tells a message of the network.
pub fn tell_network(out: &mut impl Write, octets: &[u8]) -> io::Result<()> {
    match dl_nas::message::read(octets) {
        Ok(received) => {
            let told = NetworkMessage { received };
            writeln!(out, " -> {told}")
        }
        Err(fault) => {
            let told = Fault { fault };
            writeln!(out, " -> {told}")
        }
    }
}

// Tells a message of the handset.
pub fn tell_handset(out: &mut impl Write, octets: &[u8]) -> io::Result<()> {
    match ul_nas::read::read(octets) {
        Ok(message) => {
            let told = HandsetMessage { message };
            writeln!(out, " -> {told}")
        }
        Err(refusal) => {
            let number = refusal.number();
            writeln!(out, " -> refused {number}")
        }
    }
}
