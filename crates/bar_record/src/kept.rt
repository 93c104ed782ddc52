// A bar as it is kept.
ghost use Rattle.std.specs.Prelude.{◌≡◌, ℕ};
ghost use Rattle.bar_record.specs.Record.{kind_number, key_octets, seconds_kept};

use keys::key::{Key, NameKey, SliceKey, SliceNameKey};

// Octets of a record.
pub const RECORD_LENGTH: usize = 128;

// The longest time that a timer octet can impose, 31 times 320 hours.
pub const LONGEST_SECONDS: u32 = 35_712_000;

// The key of a kept bar, by the kind of its timer.
#[derive(Clone, Copy, PartialEq, Eq, Debug)]
pub enum KeptKey {
    T3396(NameKey),
    T3584(SliceNameKey),
    T3585(SliceKey),
}

// A kind of key of which bars are kept.
pub trait KeptAs: Key {
    ghost kind: { ℕ };

    fn kept(self) -> KeptKey
        ensures kind { kind_number result ≡ kind }
        ensures key { key_octets result ≡ Self.octets self };
}

impl KeptAs for NameKey {
    ghost kind = { 1 };

    fn kept(self) -> KeptKey {
        KeptKey::T3396(self)
    }
}

impl KeptAs for SliceNameKey {
    ghost kind = { 2 };

    fn kept(self) -> KeptKey {
        KeptKey::T3584(self)
    }
}

impl KeptAs for SliceKey {
    ghost kind = { 3 };

    fn kept(self) -> KeptKey {
        KeptKey::T3585(self)
    }
}

// A running bar that is kept: its key and its seconds left.
#[derive(Clone, Copy, PartialEq, Eq, Debug)]
pub struct KeptBar {
    pub key: KeptKey,
    pub seconds: u32,
}

// Whether a number of seconds can be kept.
pub fn is_kept(seconds: u32) -> bool
    ensures { result ≡ seconds_kept seconds }
{
    matches!(seconds, 1..=LONGEST_SECONDS)
}
