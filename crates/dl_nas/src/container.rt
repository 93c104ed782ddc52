// The payload container: a header, a fixed part by the type, and elements.
ghost use Rattle.std.specs.Prelude.{◌≡◌, ◌<◌, ◌≤◌, length, MatchOption};
ghost use Rattle.dl_nas.specs.declared.container.ContainerFault.TheVariants.{Element};
ghost use Rattle.dl_nas.specs.Container.{form_of, fixed_size, Passed, caused_of, returned_of, content_of, container_of, container_number, container_place};

use crate::content::Content;
use crate::elements::{ElementFault, walk};
use crate::part::Part;

// What is wrong with a payload container, and the place of the fault.
#[derive(Clone, Copy, PartialEq, Eq, Debug)]
pub enum ContainerFault {
    // 15 or 16, in an element of the container.
    Element(ElementFault),
    // 15, is nothing cut short? The container ends in its header or in its fixed part.
    Cut(usize),
    // 17, is 2E there? The place is the container's first octet.
    NotSessionManagement(usize),
    // 17, is the type listed for the network? The place is the type's.
    UnlistedType(usize),
}

impl From<ElementFault> for ContainerFault {
    ghost from_gives = { λ x y. y ≡ Element x };

    fn from(fault: ElementFault) -> ContainerFault {
        ContainerFault::Element(fault)
    }
}

impl ContainerFault {
    // The number of the question that was answered with no.
    pub(crate) fn number(&self) -> u8
        ensures { result ≡ container_number self.now }
    {
        match *self {
            ContainerFault::Element(fault) => fault.number(),
            ContainerFault::Cut(_) => 15,
            ContainerFault::NotSessionManagement(_) | ContainerFault::UnlistedType(_) => 17,
        }
    }

    // The place of the fault, from 0 in the whole message.
    pub(crate) fn place(&self) -> usize
        ensures { result ≡ container_place self.now }
    {
        match *self {
            ContainerFault::Element(fault) => fault.place(),
            ContainerFault::Cut(place)
            | ContainerFault::NotSessionManagement(place)
            | ContainerFault::UnlistedType(place) => place,
        }
    }
}

// The types whose fixed part is a cause octet.
#[derive(Clone, Copy)]
pub(crate) enum Caused {
    EstablishmentReject,
    ModificationReject,
    ReleaseReject,
    ReleaseCommand,
    Status,
}

// The handset's own messages, of which only the header is read.
#[derive(Clone, Copy)]
pub(crate) enum Returned {
    Establishment,
    Modification,
    Release,
}

// The types, by the form of their fixed part: blocks, a cause octet, nothing, not looked at.
#[derive(Clone, Copy)]
pub(crate) enum Form {
    Accept,
    Cause(Caused),
    Command,
    Request(Returned),
}

// What a container says.
#[derive(Clone, Copy)]
pub(crate) struct Inner {
    pub(crate) identity: u8,
    pub(crate) pti: u8,
    pub(crate) content: Content,
}

fn form_of(message_type: u8) -> Option<Form>
    ensures { result ≡ form_of message_type }
{
    match message_type {
        0xC1 => Some(Form::Request(Returned::Establishment)),
        0xC2 => Some(Form::Accept),
        0xC3 => Some(Form::Cause(Caused::EstablishmentReject)),
        0xC9 => Some(Form::Request(Returned::Modification)),
        0xCA => Some(Form::Cause(Caused::ModificationReject)),
        0xCB => Some(Form::Command),
        0xD1 => Some(Form::Request(Returned::Release)),
        0xD2 => Some(Form::Cause(Caused::ReleaseReject)),
        0xD3 => Some(Form::Cause(Caused::ReleaseCommand)),
        0xD6 => Some(Form::Cause(Caused::Status)),
        _ => None,
    }
}

impl Caused {
    // The message of the type, with its cause octet and the timer octet of its elements.
    fn content(self, cause: u8, timer: Option<u8>) -> Content
        ensures { result ≡ caused_of self cause timer }
    {
        match self {
            Caused::EstablishmentReject => Content::EstablishmentReject { cause, timer },
            Caused::ModificationReject => Content::ModificationReject { cause, timer },
            Caused::ReleaseReject => Content::ReleaseReject { cause, timer },
            Caused::ReleaseCommand => Content::ReleaseCommand { cause, timer },
            Caused::Status => Content::Status { cause, timer },
        }
    }
}

impl Returned {
    // The message of the type.
    fn content(self) -> Content
        ensures { result ≡ returned_of self }
    {
        match self {
            Returned::Establishment => Content::EstablishmentRequest,
            Returned::Modification => Content::ModificationRequest,
            Returned::Release => Content::ReleaseRequest,
        }
    }
}

// How many octets the fixed part of C2 takes: one octet, a block with a two-octet length, a block with a one-octet
// length; none where a length is missing.
fn blocks_size(octets: &[u8]) -> Option<usize>
    ensures { MatchOption result (length octets.now < fixed_size Form.Accept octets.now)
        (λ n. n ≡ fixed_size Form.Accept octets.now) }
{
    let [_, high, low, after @ ..] = octets else {
        return None;
    };
    let first = usize::from(u16::from_be_bytes([*high, *low]));
    let second = after.get(first)?;
    Some(4 + first + usize::from(*second))
}

impl Form {
    // What follows the fixed part, where that is whole.
    fn behind<'a>(self, part: Part<'a>) -> Option<Part<'a>>
        ensures { MatchOption result (length part.entry.octets.now < fixed_size self part.entry.octets.now)
            (λ p. Passed self part.entry.octets.now part.entry.place p.octets.now p.place) }
    {
        let size = match self {
            Form::Accept => blocks_size(part.octets)?,
            Form::Cause(_) => 1,
            Form::Command => 0,
            Form::Request(_) => part.octets.len(),
        };
        part.past(size)
    }

    // The content, from the fixed part at the front of the octets and the timer octet of the elements.
    fn content(self, octets: &[u8], timer: Option<u8>) -> Content
        requires { fixed_size self octets.now ≤ length octets.now }
        ensures { result ≡ content_of self octets.now timer }
    {
        match self {
            Form::Accept => Content::EstablishmentAccept { timer },
            Form::Cause(caused) => caused.content(octets[0], timer),
            Form::Command => Content::ModificationCommand { timer },
            Form::Request(returned) => returned.content(),
        }
    }
}

// Reads a payload container.
pub(crate) fn read_container(part: Part<'_>) -> Result<Inner, ContainerFault>
    ensures { result ≡ container_of part.entry.octets.now part.entry.place }
{
    let [0x2E, identity, pti, message_type, octets @ ..] = part.octets else {
        return Err(match part.octets {
            [] | [0x2E, ..] => ContainerFault::Cut(part.end()),
            _ => ContainerFault::NotSessionManagement(part.place),
        });
    };
    let form = form_of(*message_type).ok_or(ContainerFault::UnlistedType(part.place + 3))?;
    let body = Part {
        octets,
        place: part.place + 4,
    };
    let elements = form.behind(body).ok_or(ContainerFault::Cut(part.end()))?;
    let found = walk(elements)?;
    let timer = found.timer.map(|seen| seen.octet);
    Ok(Inner {
        identity: *identity,
        pti: *pti,
        content: form.content(octets, timer),
    })
}
