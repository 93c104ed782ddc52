// The switched-off handset. It has no request calls.
ghost use Rattle.std.specs.Prelude.{◌≡◌, length};
ghost use Rattle.rules.specs.Power.{commissioned, taken_length};
ghost use Rattle.uplink.specs.Waiting.{after_take, place_after};

use keeper::{Keeper, RECORD_LENGTH};
pub use kept_set::TRAILER;
use uplink::queue::Uplink;

// A switched-off handset holds nothing of its own beside uplink and keeper.
pub struct SwitchedOff<U: Uplink, K: Keeper> {
    pub uplink: U,
    pub keeper: K,
}

// Takes an uplink and a keeper into service: the trailer is written as zeros.
pub fn commission<U: Uplink, K: Keeper>(uplink: U, keeper: K) -> SwitchedOff<U, K>
    ensures uplink { result.uplink ≡ uplink }
    ensures records { K.Keeper.records result.keeper ≡ commissioned (K.Keeper.records keeper) }
{
    let mut keeper = keeper;
    let _ = keeper.write(TRAILER, &[0; RECORD_LENGTH]);
    SwitchedOff { uplink, keeper }
}

// The network takes the oldest message into a place, and answers its length; refused, 0 with nothing written.
pub fn take_oldest<U: Uplink>(uplink: &mut U, place: &mut [u8]) -> usize
    ensures answer { result ≡ taken_length (U.Uplink.waiting uplink.old) (length place.old) }
    ensures queue { U.Uplink.waiting uplink.new ≡ after_take (U.Uplink.waiting uplink.old) place.old }
    ensures place { place.new ≡ place_after (U.Uplink.waiting uplink.old) place.old }
{
    uplink.take(place).unwrap_or(0)
}

impl<U: Uplink, K: Keeper> SwitchedOff<U, K> {
    // The network's take from the uplink of a switched-off handset.
    pub fn network_take(&mut self, place: &mut [u8]) -> usize
        ensures answer { result ≡ taken_length (U.Uplink.waiting self.old.uplink) (length place.old) }
        ensures queue { U.Uplink.waiting self.new.uplink ≡ after_take (U.Uplink.waiting self.old.uplink) place.old }
        ensures place { place.new ≡ place_after (U.Uplink.waiting self.old.uplink) place.old }
        ensures keeper { self.new.keeper ≡ self.old.keeper }
    {
        take_oldest(&mut self.uplink, place)
    }
}
