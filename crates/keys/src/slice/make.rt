ghost use Rattle.std.specs.Prelude.{◌≡◌, ◌≤◌, [], length};
ghost use Rattle.std.specs.Option.{option_map};
ghost use Rattle.keys.specs.Lengths.{slice_length};
ghost use Rattle.keys.specs.Parts.{slice_octets, made_octets, made_of};
ghost use Rattle.keys.specs.declared.refusal.PartRefusal.TheVariants as refusal;

use super::Slice;
use crate::refusal::PartRefusal;
use octet_string::OctetString;

// Whether a slice may have some number of octets.
fn is_length(n: usize) -> bool
    ensures { result ≡ slice_length n }
{
    matches!(n, 1 | 2 | 4 | 5 | 8)
}

impl Slice {
    // The absent slice.
    pub fn absent() -> Slice
        ensures { slice_octets result ≡ [] }
    {
        Slice {
            octets: OctetString::empty(),
        }
    }

    // The slice of some octets, or the absent one where there are none to take. It is refused where these
    // are not 1, 2, 4, 5 or 8.
    pub fn new(octets: Option<&[u8]>) -> Result<Slice, PartRefusal>
        ensures { made_octets slice_octets result ≡ made_of slice_length refusal.Slice (option_map (λ x. x.now) octets.entry) }
    {
        match octets {
            None => Ok(Slice::absent()),
            Some(given) if is_length(given.len()) => {
                let octets = OctetString::new(given).ok_or(PartRefusal::Slice)?;
                Ok(Slice { octets })
            }
            Some(_) => Err(PartRefusal::Slice),
        }
    }

    // The octets of the slice; none where it is absent.
    pub fn octets(&self) -> &[u8]
        ensures value { result.now ≡ slice_octets self.now }
        ensures len { length result.now ≤ 8 }
    {
        self.octets.as_slice()
    }
}
