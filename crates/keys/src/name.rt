ghost use Rattle.std.specs.Prelude.{◌≡◌};

pub mod make;

use octet_string::OctetString;

// A DNN of 1 to 100 octets, or the absent one, which has none. A name is known by its octets.
#[derive(Clone, Copy, PartialEq, Eq, Debug)]
pub struct Name {
    octets: OctetString<100>,
}
