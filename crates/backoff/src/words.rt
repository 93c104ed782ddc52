// A timer octet told in words: how many of which unit.
ghost use Rattle.std.specs.Prelude.{◌≡◌, ◌/◌, ◌%◌, Some};
ghost use Rattle.backoff.specs.Octet.{unit_of};
ghost use Rattle.backoff.specs.Words.{told};

use crate::octet::{TimerUnit, split};
use std::fmt;

// The unit and the value of an octet, to be printed as `3 x 30 s` or `deactivated`.
#[derive(Clone, Copy)]
pub struct OctetWords {
    unit: TimerUnit,
    value: u8,
}

// The words of an octet, by the same split as its reading.
pub fn in_words(octet: u8) -> OctetWords
    ensures unit { result.unit ≡ unit_of (octet / 32) }
    ensures value { result.value ≡ octet % 32 }
{
    let (unit, value) = split(octet);
    OctetWords { unit, value }
}

impl fmt::Display for OctetWords {
    ghost output = { λ w. Some (told w.unit w.value) };

    fn fmt<W: fmt::Write>(&self, f: &mut fmt::Formatter<W>) -> fmt::Result {
        let value = self.value;
        let step = self.unit.seconds();
        match self.unit {
            TimerUnit::Deactivated => write!(f, "deactivated"),
            _ => write!(f, "{value} x {step} s"),
        }
    }
}
