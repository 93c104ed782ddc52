// What the three keys of a request or of a session are made of.
ghost use Rattle.std.specs.Prelude.{◌≡◌, ℕ, List};
ghost use Rattle.std.specs.Str.{bytes_eq};
ghost use Rattle.keys.specs.Octets.{KeyOctets};
ghost use Rattle.keys.specs.Same.{Laws};
ghost use Rattle.keys.specs.Parts.{name_octets, slice_octets};
ghost use Rattle.keys.specs.Lawful.{names_lawful, slices_lawful, networks_lawful, name_equal, slice_equal, network_equal};
ghost use Rattle.keys.specs.KeyParts.{parts_view, name_key, slice_name_key, slice_key};

use crate::key::{Key, NameKey, SliceKey, SliceNameKey};
use crate::name::Name;
use crate::network::Network;
use crate::slice::Slice;

// A part of a key: it is known by its octets, and two are equal exactly where these are the same.
pub trait KeyPart: Eq {
    ghost octets: { Self → List ℕ };

    ghost lawful: { Laws Self.PartialEq.eq };

    ghost spelled: { (x y : Self) → Self.PartialEq.eq x y ≡ bytes_eq (octets x) (octets y) };
}

impl KeyPart for Network {
    ghost octets = { λ n. n.octets };

    ghost lawful = { networks_lawful };

    ghost spelled = { network_equal };
}

impl KeyPart for Slice {
    ghost octets = { slice_octets };

    ghost lawful = { slices_lawful };

    ghost spelled = { slice_equal };
}

impl KeyPart for Name {
    ghost octets = { name_octets };

    ghost lawful = { names_lawful };

    ghost spelled = { name_equal };
}

// Network, slice and name: the T3396 key is the name, the T3584 key all three, the T3585 key network and slice.
#[derive(Clone, Copy, PartialEq, Eq, Debug)]
pub struct KeyParts {
    pub network: Network,
    pub slice: Slice,
    pub name: Name,
}

// A kind of key that is made of such parts.
pub trait PartsKey: Key {
    ghost part: { KeyOctets → KeyOctets };

    fn of_parts(parts: &KeyParts) -> Self
        ensures { Self.octets result ≡ part (parts_view parts.now) };
}

impl PartsKey for NameKey {
    ghost part = { name_key };

    fn of_parts(parts: &KeyParts) -> NameKey {
        NameKey { name: parts.name }
    }
}

impl PartsKey for SliceNameKey {
    ghost part = { slice_name_key };

    fn of_parts(parts: &KeyParts) -> SliceNameKey {
        SliceNameKey {
            network: parts.network,
            slice: parts.slice,
            name: parts.name,
        }
    }
}

impl PartsKey for SliceKey {
    ghost part = { slice_key };

    fn of_parts(parts: &KeyParts) -> SliceKey {
        SliceKey {
            network: parts.network,
            slice: parts.slice,
        }
    }
}
