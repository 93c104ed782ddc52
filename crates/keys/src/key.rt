// The keys of the three back-off timers, and when two keys are the same.
ghost use Rattle.std.specs.Prelude.{◌≡◌};
ghost use Rattle.keys.specs.Octets.{KeyOctets, same_key};
ghost use Rattle.keys.specs.Lawful.{name_keys_lawful, slice_name_keys_lawful, slice_keys_lawful, name_key_spelled, slice_name_key_spelled, slice_key_spelled};
ghost use Rattle.keys.specs.Same.{Laws};
ghost use Rattle.keys.specs.Sames.{name_key_octets, slice_name_key_octets, slice_key_octets};

use crate::name::Name;
use crate::network::Network;
use crate::slice::Slice;

// The T3396 key: the name alone.
#[derive(Clone, Copy, PartialEq, Eq, Debug)]
pub struct NameKey {
    pub name: Name,
}

// The T3584 key: network, slice and name.
#[derive(Clone, Copy, PartialEq, Eq, Debug)]
pub struct SliceNameKey {
    pub network: Network,
    pub slice: Slice,
    // The name, which may be the absent one.
    pub name: Name,
}

// The T3585 key: network and slice.
#[derive(Clone, Copy, PartialEq, Eq, Debug)]
pub struct SliceKey {
    pub network: Network,
    pub slice: Slice,
}

// What a back-off timer is kept on: a key is known by its octets, and two keys are equal exactly where these are the same.
pub trait Key: Eq {
    ghost octets: { Self → KeyOctets };

    ghost lawful: { Laws Self.PartialEq.eq };

    ghost spelled: { (x y : Self) → Self.PartialEq.eq x y ≡ same_key (octets x) (octets y) };
}

impl Key for NameKey {
    ghost octets = { name_key_octets };

    ghost lawful = { name_keys_lawful };

    ghost spelled = { name_key_spelled };
}

impl Key for SliceNameKey {
    ghost octets = { slice_name_key_octets };

    ghost lawful = { slice_name_keys_lawful };

    ghost spelled = { slice_name_key_spelled };
}

impl Key for SliceKey {
    ghost octets = { slice_key_octets };

    ghost lawful = { slice_keys_lawful };

    ghost spelled = { slice_key_spelled };
}
