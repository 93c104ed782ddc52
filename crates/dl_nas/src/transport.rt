// The outer layer of a message of the network: the beginning, the payload container with its length, and elements.
ghost use Rattle.std.specs.Prelude.{◌≡◌, Ok, Err, MatchResult};
ghost use Rattle.dl_nas.specs.declared.transport.TransportFault.TheVariants.{Element};
ghost use Rattle.dl_nas.specs.Transport.{outer_of, payload_of, transport_number, transport_place};

use crate::elements::{ElementFault, Found, walk};
use crate::part::Part;

// What is wrong with the outer layer, and the place of the fault.
#[derive(Clone, Copy, PartialEq, Eq, Debug)]
pub enum TransportFault {
    // 15 or 16, in an element behind the container.
    Element(ElementFault),
    // 15, is nothing cut short? The message ends before the elements.
    Cut(usize),
    // 14, is the beginning 7E 00 68 and an octet whose low half is 1? The first wrong octet of the four.
    Beginning(usize),
}

impl From<ElementFault> for TransportFault {
    ghost from_gives = { λ x y. y ≡ Element x };

    fn from(fault: ElementFault) -> TransportFault {
        TransportFault::Element(fault)
    }
}

impl TransportFault {
    // The number of the question that was answered with no.
    pub(crate) fn number(&self) -> u8
        ensures { result ≡ transport_number self.now }
    {
        match *self {
            TransportFault::Element(fault) => fault.number(),
            TransportFault::Cut(_) => 15,
            TransportFault::Beginning(_) => 14,
        }
    }

    // The place of the fault, from 0 in the whole message.
    pub(crate) fn place(&self) -> usize
        ensures { result ≡ transport_place self.now }
    {
        match *self {
            TransportFault::Element(fault) => fault.place(),
            TransportFault::Cut(place) | TransportFault::Beginning(place) => place,
        }
    }
}

// What the outer layer says: the elements found behind the payload container, and the container, which is not read yet.
#[derive(Clone, Copy)]
pub(crate) struct Outer<'a> {
    pub(crate) found: Found,
    pub(crate) payload: Part<'a>,
}

// Reads the outer layer whole.
pub(crate) fn read_outer(message: &[u8]) -> Result<Outer<'_>, TransportFault>
    ensures { MatchResult result
        (λ o. (Ok o.found ≡ outer_of message.now)
        × (o.payload.octets.now ≡ payload_of message.now)
        × (o.payload.place ≡ 6))
        (λ e. Err e ≡ outer_of message.now) }
{
    let [0x7E, 0x00, 0x68, payload_type, rest @ ..] = message else {
        return Err(match message {
            [] | [0x7E] | [0x7E, 0x00] | [0x7E, 0x00, 0x68] => TransportFault::Cut(message.len()),
            [0x7E, 0x00, ..] => TransportFault::Beginning(2),
            [0x7E, ..] => TransportFault::Beginning(1),
            _ => TransportFault::Beginning(0),
        });
    };
    // The low half of the octet is the payload container type, 1 for 5GSM information.
    if *payload_type % 16 != 1 {
        return Err(TransportFault::Beginning(3));
    }
    let [high, low, rest @ ..] = rest else {
        return Err(TransportFault::Cut(message.len()));
    };
    let size = usize::from(u16::from_be_bytes([*high, *low]));
    let (payload, elements) = rest
        .split_at_checked(size)
        .ok_or(TransportFault::Cut(message.len()))?;
    let found = walk(Part {
        octets: elements,
        place: 6 + size,
    })?;
    Ok(Outer {
        found,
        payload: Part {
            octets: payload,
            place: 6,
        },
    })
}
