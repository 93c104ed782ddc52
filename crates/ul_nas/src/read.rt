// Uplink messages, read back.
ghost use Rattle.std.specs.Prelude.{◌≡◌, Some};
ghost use Rattle.std.specs.Option.{option_map};
ghost use Rattle.ul_nas.specs.Message.{carried, viewed};
ghost use Rattle.ul_nas.specs.Reading.{optional_of, elements_of, type_octet_of, establishment_of, header_only_of, carried_of, told, shown, read_refusal_number};
ghost use Rattle.ul_nas.specs.Laws.{ReadExactly, Exact};

use crate::message::{Content, Establishment, RequestType, UplinkMessage};

// The refusal of octets that are not a lawful message in its written form.
#[derive(Clone, Copy, PartialEq, Debug)]
pub struct NotWrittenForm;

impl NotWrittenForm {
    // 19: has it the written form, one identity 1 to 15, a PTI that its type allows, and a lawful request type, slice and name?
    pub fn number(&self) -> u8
        ensures { result ≡ read_refusal_number self.now }
    {
        19
    }
}

// An element that may be absent, and what follows it.
#[derive(Clone, Copy)]
struct Part<'a> {
    content: Option<&'a [u8]>,
    rest: &'a [u8],
}

fn read_optional(identifier: u8, octets: &[u8]) -> Option<Part<'_>>
    ensures { option_map (λ p. (option_map (λ x. x.now) p.content, p.rest.now)) result ≡ optional_of identifier octets.now }
{
    match octets {
        [first, after @ ..] if *first == identifier => {
            let (size, after) = after.split_first()?;
            let (content, rest) = after.split_at_checked(usize::from(*size))?;
            Some(Part {
                content: Some(content),
                rest,
            })
        }
        _ => Some(Part {
            content: None,
            rest: octets,
        }),
    }
}

// The elements behind the request type: the slice, the name, and nothing else.
fn read_elements(request_type: RequestType, octets: &[u8]) -> Option<Content<'_>>
    ensures { option_map carried result ≡ elements_of (Some request_type) octets.now }
{
    let slice = read_optional(0x22, octets)?;
    let name = read_optional(0x25, slice.rest)?;
    if !name.rest.is_empty() {
        return None;
    }
    Some(Content::EstablishmentRequest(Establishment {
        request_type,
        slice: slice.content,
        name: name.content,
    }))
}

// The octet 8T with the request type T.
fn read_type_octet(octet: u8) -> Option<RequestType>
    ensures { result ≡ type_octet_of octet }
{
    RequestType::try_from(octet.checked_sub(0x80)?).ok()
}

// What follows the message type of an establishment request.
fn read_establishment(identity: u8, after: &[u8]) -> Option<Content<'_>>
    ensures { option_map carried result ≡ establishment_of identity after.now }
{
    let [0xFF, 0xFF, 0x12, again, octet, elements @ ..] = after else {
        return None;
    };
    if *again != identity {
        return None;
    }
    let request_type = read_type_octet(*octet)?;
    read_elements(request_type, elements)
}

// The messages whose container is the header only.
fn header_only(octet: u8) -> Option<Content<'static>>
    ensures { option_map carried result ≡ header_only_of octet }
{
    match octet {
        0xC9 => Some(Content::ModificationRequest),
        0xD1 => Some(Content::ReleaseRequest),
        0xCC => Some(Content::ModificationComplete),
        0xD4 => Some(Content::ReleaseComplete),
        _ => None,
    }
}

// What follows the message type, by the message type and the length of the container.
fn read_content(identity: u8, octet: u8, size: u8, after: &[u8]) -> Option<Content<'_>>
    ensures { option_map carried result ≡ carried_of identity octet size after.now }
{
    match (octet, size) {
        (0xC1, 6) => read_establishment(identity, after),
        (0xD6, 5) => match after {
            [0x2B, 0x12, again] if *again == identity => Some(Content::Status),
            _ => None,
        },
        (_, 4) => match after {
            [0x12, again] if *again == identity => header_only(octet),
            _ => None,
        },
        _ => None,
    }
}

// The transport, and then what it carries.
fn read_message(octets: &[u8]) -> Option<UplinkMessage<'_>>
    ensures { option_map viewed result ≡ told octets.now }
{
    let [
        0x7E,
        0x00,
        0x67,
        0x01,
        0x00,
        size,
        0x2E,
        identity,
        pti,
        octet,
        after @ ..,
    ] = octets
    else {
        return None;
    };
    let content = read_content(*identity, *octet, *size, after)?;
    let message = UplinkMessage {
        identity: *identity,
        pti: *pti,
        content,
    };
    message.is_lawful().then_some(message)
}

// Reads a message back, or refuses with 19 octets that are not a lawful message in its written form.
pub fn read(octets: &[u8]) -> Result<UplinkMessage<'_>, NotWrittenForm>
    ensures answer { shown result ≡ told octets.now }
    ensures exact { ReadExactly octets.now result }
    ensures law { Exact }
{
    read_message(octets).ok_or(NotWrittenForm)
}
