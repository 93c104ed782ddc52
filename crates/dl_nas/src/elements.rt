// The optional elements of a layer: a walk from a given octet to the layer's end.
ghost use Rattle.std.specs.Prelude.{◌≡◌, ◌+◌, ◌^◌, ◌<◌, ◌≤◌, length, slice_index, None};
ghost use Rattle.dl_nas.specs.Elements.{extent as extentOf, noted as noted_in, nothing, walked, Extent, fault_at, element_number, element_place};

use crate::part::Part;

// An octet that an element holds, and the place of the element's identifier.
#[derive(Clone, Copy)]
pub(crate) struct Seen {
    pub(crate) octet: u8,
    pub(crate) place: usize,
}

// The first of each element that is looked for: 37 (back-off timer value), 58 (5GMM cause), 12 (PDU session identity).
#[derive(Clone, Copy)]
pub(crate) struct Found {
    pub(crate) timer: Option<Seen>,
    pub(crate) cause: Option<Seen>,
    pub(crate) identity: Option<Seen>,
}

// What is wrong with an element, and the place of the fault.
#[derive(Clone, Copy, PartialEq, Eq, Debug)]
pub enum ElementFault {
    // 15, is nothing cut short? The layer ends within an element.
    Cut(usize),
    // 16, is no identifier 00 to 0F? The place is the identifier's.
    ReservedIdentifier(usize),
    // 16, has 37 the length 1? The place is the length octet's.
    TimerLength(usize),
}

impl ElementFault {
    // The number of the question that was answered with no.
    pub(crate) fn number(&self) -> u8
        ensures { result ≡ element_number self.now }
    {
        match *self {
            ElementFault::Cut(_) => 15,
            ElementFault::ReservedIdentifier(_) | ElementFault::TimerLength(_) => 16,
        }
    }

    // The place of the fault, from 0 in the whole message.
    pub(crate) fn place(&self) -> usize
        ensures { result ≡ element_place self.now }
    {
        match *self {
            ElementFault::Cut(place)
            | ElementFault::ReservedIdentifier(place)
            | ElementFault::TimerLength(place) => place,
        }
    }
}

// An element whose identifier was read: the place of the identifier, and what follows it in the layer.
#[derive(Clone, Copy)]
struct Begun<'a> {
    identifier: u8,
    place: usize,
    after: &'a [u8],
    ghost fits: { place + length after.now + 1 < 2 ^ 64 },
}

impl Begun<'_> {
    // How many octets behind the identifier belong to the element.
    fn extent(&self) -> Result<usize, ElementFault>
        ensures { Extent self.now.identifier self.now.place self.now.after.now result }
    {
        let end = self.place + 1 + self.after.len();
        let size = match self.identifier {
            0x00..=0x0F => return Err(ElementFault::ReservedIdentifier(self.place)),
            0x80..=0xFF => 0,
            0x12 | 0x56 | 0x58 | 0x59 => 1,
            0x70..=0x7F => match self.after {
                [high, low, ..] => 2 + usize::from(u16::from_be_bytes([*high, *low])),
                _ => return Err(ElementFault::Cut(end)),
            },
            _ => match self.after {
                [length, ..] if self.identifier == 0x37 && *length != 1 => return Err(
                    ElementFault::TimerLength(self.place + 1),
                ),
                [length, ..] => 1 + usize::from(*length),
                [] => return Err(ElementFault::Cut(end)),
            },
        };
        if size > self.after.len() {
            return Err(ElementFault::Cut(end));
        }
        Ok(size)
    }

    // An octet behind the identifier, as it is kept.
    fn seen(&self, index: usize) -> Seen
        requires { index < length self.now.after.now }
        ensures octet { result.octet ≡ slice_index self.now.after.now index }
        ensures place { result.place ≡ self.now.place }
    {
        Seen {
            octet: self.after[index],
            place: self.place,
        }
    }

    // What is found, with this element: the first of a repeated element counts.
    fn noted(&self, found: Found) -> Found
        requires right { fault_at self.now.identifier self.now.place self.now.after.now ≡ None }
        requires whole { extentOf self.now.identifier self.now.after.now ≤ length self.now.after.now }
        ensures { result ≡ noted_in found self.now.identifier self.now.place self.now.after.now }
    {
        match self.identifier {
            0x37 => Found {
                timer: found.timer.or(Some(self.seen(1))),
                ..found
            },
            0x58 => Found {
                cause: found.cause.or(Some(self.seen(0))),
                ..found
            },
            0x12 => Found {
                identity: found.identity.or(Some(self.seen(0))),
                ..found
            },
            _ => found,
        }
    }
}

// Reads the elements of a layer, of which `part` is what is left.
pub(crate) fn walk(part: Part<'_>) -> Result<Found, ElementFault>
    ensures { result ≡ walked part.entry.octets.now 0 part.entry.place nothing }
{
    let mut found = Found {
        timer: None,
        cause: None,
        identity: None,
    };
    let mut rest = part.octets;
    let mut place = part.place;
    while let [identifier, after @ ..] = rest {
        let element = Begun {
            identifier: *identifier,
            place,
            after,
        };
        let size = element.extent()?;
        found = element.noted(found);
        place += 1 + size;
        rest = &after[size..];
    }
    Ok(found)
}
