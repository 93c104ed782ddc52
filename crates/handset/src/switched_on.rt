// The handset switched on, with what always holds of it.
ghost use Rattle.std.specs.Prelude.{◌≡◌, length};
ghost use Rattle.keys.specs.Parts.{name_octets, slice_octets};
ghost use Rattle.requests.specs.SoundViews.{sound_view};
ghost use Rattle.requests.specs.State.{network_changed, looked_up};
ghost use Rattle.rules.specs.Power.{taken_length};
ghost use Rattle.uplink.specs.Waiting.{after_take, place_after};

use crate::off::take_oldest;
use keeper::Keeper;
use keys::name::Name;
use keys::network::Network;
use keys::slice::Slice;
use requests::sound::SoundState;
use timers::timers::methods::TimersOn;
use uplink::queue::Uplink;

// What it remembers, its uplink and its keeper.
pub struct SwitchedOn<U: Uplink, K: Keeper> {
    pub state: SoundState,
    pub uplink: U,
    pub keeper: K,
}

impl<U: Uplink, K: Keeper> SwitchedOn<U, K> {
    // Changes the network for requests from now on; sessions keep their keys, and bars stay.
    pub fn change_network(&mut self, network: Network)
        ensures state { sound_view self.new.state ≡ network_changed network.octets (sound_view self.old.state) }
        ensures uplink { self.new.uplink ≡ self.old.uplink }
        ensures keeper { self.new.keeper ≡ self.old.keeper }
    {
        self.state.plain.change_network(network);
    }

    // The three back-off timers on the keys of a slice and a name in the current network. Nothing changes.
    pub fn timers(&self, slice: Slice, name: Name) -> TimersOn
        ensures { result ≡ looked_up (sound_view self.now.state) (slice_octets slice) (name_octets name) }
    {
        self.state.plain.timers_on(slice, name)
    }

    // The network's take from the uplink.
    pub fn network_take(&mut self, place: &mut [u8]) -> usize
        ensures answer { result ≡ taken_length (U.Uplink.waiting self.old.uplink) (length place.old) }
        ensures queue { U.Uplink.waiting self.new.uplink ≡ after_take (U.Uplink.waiting self.old.uplink) place.old }
        ensures place { place.new ≡ place_after (U.Uplink.waiting self.old.uplink) place.old }
        ensures state { self.new.state ≡ self.old.state }
        ensures keeper { self.new.keeper ≡ self.old.keeper }
    {
        take_oldest(&mut self.uplink, place)
    }
}
