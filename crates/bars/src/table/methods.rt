// What can be asked of a table of bars, and done to it. A table is told by the octets of its keys.
ghost use Rattle.std.specs.Prelude.{◌≡◌, ◌^◌, ◌<◌, map, replicate};
ghost use Rattle.backoff.specs.declared.timer.BackOffTimer.TheVariants.{Stopped};
ghost use Rattle.std.specs.Option.{SomeIff, option_map};
ghost use Rattle.std.specs.List.{slice_get};
ghost use Rattle.bars.specs.Bars.{bar_octets, shown, timer_on, standing, has_place, imposed, lifted, deactivated_lifted, counted_off};
ghost use Rattle.bars.specs.Claimed.{claimed};
ghost use Rattle.bars.specs.Sizes.{place_count};
ghost use Rattle.bars.specs.Laws.{Imposes, Lifts, Reactivates, Counts};

use super::{PLACES, Table};
use crate::bar::{Bar, activated, impose_in, standing_in, timer_in};
use crate::claimed::claimed_in;
use crate::retime::retime;
use backoff::timer::BackOffTimer;
use keys::key::Key;

impl<K: Key + Copy> Table<K> {
    // The table in which no bar stands. The given key is at every place, and its timer is stopped.
    pub fn new(blank: K) -> Table<K>
        ensures { shown K.Key.octets result.places ≡ replicate place_count (record { key = K.Key.octets blank; timer = Stopped }) }
    {
        Table {
            places: [Bar {
                key: blank,
                timer: BackOffTimer::Stopped,
            }; PLACES],
        }
    }

    // The timer on a key.
    pub fn timer_on(&self, key: &K) -> BackOffTimer
        ensures { result ≡ timer_on (shown K.Key.octets self.now.places) (K.Key.octets key.now) }
    {
        timer_in(&self.places, key)
    }

    // How many bars stand.
    pub fn standing(&self) -> usize
        ensures { result ≡ standing (shown K.Key.octets self.now.places) }
    {
        standing_in(&self.places)
    }

    // Starts or deactivates the timer on a key, replacing what stood there and its spelling. It is
    // refused where the table has no place for it, and then leaves the table alone.
    pub fn impose(&mut self, key: K, timer: BackOffTimer) -> bool
        ensures answer { result ≡ has_place (K.Key.octets key) (shown K.Key.octets self.old.places) }
        ensures after { shown K.Key.octets self.new.places ≡ imposed (K.Key.octets key) timer (shown K.Key.octets self.old.places) }
        ensures law { Imposes (K.Key.octets key) timer result (shown K.Key.octets self.old.places) (shown K.Key.octets self.new.places) }
    {
        impose_in(&mut self.places, key, timer)
    }

    // Stops the timer on a key.
    pub fn lift(&mut self, key: &K)
        ensures after { shown K.Key.octets self.new.places ≡ lifted (K.Key.octets key.now) (shown K.Key.octets self.old.places) }
        ensures law { Lifts (K.Key.octets key.now) (shown K.Key.octets self.old.places) (shown K.Key.octets self.new.places) }
    {
        retime(&mut self.places, |bar| bar.without(key));
    }

    // Stops every deactivated timer.
    pub fn lift_deactivated(&mut self)
        ensures after { shown K.Key.octets self.new.places ≡ deactivated_lifted (shown K.Key.octets self.old.places) }
        ensures law { Reactivates (shown K.Key.octets self.old.places) (shown K.Key.octets self.new.places) }
    {
        retime(&mut self.places, |bar| activated(bar.timer));
    }

    // Takes some seconds off every running timer; one with none left is stopped, and its place is free.
    pub fn count(&mut self, seconds: u32)
        ensures after { shown K.Key.octets self.new.places ≡ counted_off seconds (shown K.Key.octets self.old.places) }
        ensures law { Counts seconds (shown K.Key.octets self.old.places) (shown K.Key.octets self.new.places) }
    {
        retime(&mut self.places, |bar| bar.timer.count(seconds));
    }

    // The bar at a place, counted from 0, standing or not; none past the last place.
    pub fn bar_at(&self, place: usize) -> Option<Bar<K>>
        ensures { option_map (bar_octets K.Key.octets) result ≡ slice_get (shown K.Key.octets self.now.places) place }
    {
        self.places.get(place).copied()
    }

    // How many different keys are claimed, by bars that stand or by others that have these keys; none
    // where the number does not fit.
    pub fn claimed_with(&self, keys: &[K]) -> Option<usize>
        ensures { SomeIff result (claimed (shown K.Key.octets self.now.places) (map K.Key.octets keys.now) < 2 ^ 64) (claimed (shown K.Key.octets self.now.places) (map K.Key.octets keys.now)) }
    {
        claimed_in(&self.places, keys)
    }
}
