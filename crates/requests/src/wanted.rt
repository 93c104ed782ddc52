// What an establishment request asks for.
ghost use Rattle.std.specs.Prelude.{◌≡◌};
ghost use Rattle.std.specs.Option.{option_map};
ghost use Rattle.keys.specs.KeyParts.{parts_view};
ghost use Rattle.requests.specs.Wanted.{wanted_view, wanted_of, told_wanted, keys_in};

use crate::question::Question;
use keys::name::Name;
use keys::network::Network;
use keys::parts::KeyParts;
use keys::slice::Slice;
use ul_nas::message::RequestType;

// A lawful request type, slice and name.
#[derive(Clone, Copy)]
pub struct Wanted {
    pub request_type: RequestType,
    pub slice: Slice,
    pub name: Name,
}

impl Wanted {
    // The questions 1 to 4: the request type, absent parts under an emergency type, the name, the slice.
    pub fn new(
        request_type: u8,
        slice: Option<&[u8]>,
        name: Option<&[u8]>,
    ) -> Result<Wanted, Question>
        ensures { told_wanted result ≡ wanted_of request_type (option_map (λ x. x.now) slice.entry) (option_map (λ x. x.now) name.entry) }
    {
        let request_type = RequestType::try_from(request_type)?;
        if request_type.is_emergency() && (slice.is_some() || name.is_some()) {
            return Err(Question::EmergencyParts);
        }
        let name = Name::new(name)?;
        let slice = Slice::new(slice)?;
        Ok(Wanted {
            request_type,
            slice,
            name,
        })
    }

    // The parts of the keys that the request has in a network.
    pub(crate) fn parts(&self, network: Network) -> KeyParts
        ensures { parts_view result ≡ keys_in network.octets (wanted_view self.now) }
    {
        KeyParts {
            network,
            slice: self.slice,
            name: self.name,
        }
    }
}
