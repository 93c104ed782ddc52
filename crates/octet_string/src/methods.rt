// What a string of octets is made of, and what it tells.
ghost use Rattle.std.specs.Prelude.{◌≡◌, ◌≤◌, [], length, if◌then◌else◌, nat_le, Some, None};
ghost use Rattle.std.specs.Option.{option_map};
ghost use Rattle.octet_string.specs.Held.{held};
ghost use Rattle.std.specs.Str.{bytes_eq};

use crate::OctetString;

impl<const N: usize> OctetString<N> {
    // No octet.
    pub fn empty() -> OctetString<N>
        ensures { held result ≡ [] }
    {
        OctetString {
            count: 0,
            octets: [0; N],
        }
    }

    // A string of these octets; none where they are more than N.
    pub fn new(octets: &[u8]) -> Option<OctetString<N>>
        ensures { option_map held result ≡ (if nat_le (length octets.now) N then Some octets.now else None) }
    {
        if octets.len() > N {
            return None;
        }
        let mut own = [0u8; N];
        own[..octets.len()].copy_from_slice(octets);
        Some(OctetString {
            count: octets.len(),
            octets: own,
        })
    }

    // The octets.
    pub fn as_slice(&self) -> &[u8]
        ensures value { result.now ≡ held self.now }
        ensures short { length result.now ≤ N }
    {
        &self.octets[..self.count]
    }

    // Whether two strings have the same octets; `==` says the same.
    pub fn is_same(&self, other: &OctetString<N>) -> bool
        ensures { result ≡ bytes_eq (held self.now) (held other.now) }
    {
        *self == *other
    }
}
