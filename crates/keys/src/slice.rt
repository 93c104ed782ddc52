ghost use Rattle.std.specs.Prelude.{◌≡◌, true, length};
ghost use Rattle.octet_string.specs.Held.{held};
ghost use Rattle.keys.specs.Lengths.{slice_held};

pub mod make;

use octet_string::OctetString;

// An S-NSSAI of 1, 2, 4, 5 or 8 octets, or the absent one, which has none. A slice is known by its octets.
#[derive(Clone, Copy, PartialEq, Eq, Debug)]
pub struct Slice {
    octets: OctetString<8>,
    ghost lawful: { slice_held (length (held octets)) ≡ true },
}
