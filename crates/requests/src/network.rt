// The network of a handset, and the timers on keys in it.
ghost use Rattle.std.specs.Prelude.{◌≡◌};
ghost use Rattle.keys.specs.Parts.{name_octets, slice_octets};
ghost use Rattle.requests.specs.State.{state_view, network_changed, looked_up};

use crate::state::State;
use keys::name::Name;
use keys::network::Network;
use keys::parts::KeyParts;
use keys::slice::Slice;
use timers::timers::methods::TimersOn;

impl State {
    // Changes the network for requests from now on; sessions keep their keys, and bars stay.
    pub fn change_network(&mut self, network: Network)
        ensures { state_view self.new ≡ network_changed network.octets (state_view self.old) }
    {
        self.network = network;
    }

    // The three back-off timers on the keys of a slice and a name in the current network. Nothing changes.
    pub fn timers_on(&self, slice: Slice, name: Name) -> TimersOn
        ensures { result ≡ looked_up (state_view self.now) (slice_octets slice) (name_octets name) }
    {
        self.timers.on(&KeyParts {
            network: self.network,
            slice,
            name,
        })
    }
}
