ghost use Rattle.std.specs.Prelude.{◌≡◌, ◌≤◌, [], length};
ghost use Rattle.std.specs.Option.{option_map};
ghost use Rattle.keys.specs.Lengths.{name_length};
ghost use Rattle.keys.specs.Parts.{name_octets, made_octets, made_of};
ghost use Rattle.keys.specs.declared.refusal.PartRefusal.TheVariants as refusal;

use super::Name;
use crate::refusal::PartRefusal;
use octet_string::OctetString;

// Whether a name may have some number of octets.
fn is_length(n: usize) -> bool
    ensures { result ≡ name_length n }
{
    matches!(n, 1..=100)
}

impl Name {
    // The absent name.
    pub fn absent() -> Name
        ensures { name_octets result ≡ [] }
    {
        Name {
            octets: OctetString::empty(),
        }
    }

    // The name of some octets, or the absent one where there are none to take. It is refused where these
    // are no octets or more than 100.
    pub fn new(octets: Option<&[u8]>) -> Result<Name, PartRefusal>
        ensures { made_octets name_octets result ≡ made_of name_length refusal.Name (option_map (λ x. x.now) octets.entry) }
    {
        match octets {
            None => Ok(Name::absent()),
            Some(given) if is_length(given.len()) => {
                let octets = OctetString::new(given).ok_or(PartRefusal::Name)?;
                Ok(Name { octets })
            }
            Some(_) => Err(PartRefusal::Name),
        }
    }

    // The octets of the name; none where it is absent.
    pub fn octets(&self) -> &[u8]
        ensures value { result.now ≡ name_octets self.now }
        ensures len { length result.now ≤ 100 }
    {
        self.octets.as_slice()
    }
}
