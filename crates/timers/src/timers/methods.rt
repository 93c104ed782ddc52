// What can be asked of a handset's timers, and done to them.
ghost use Rattle.std.specs.Prelude.{◌≡◌, map, nat_le};
ghost use Rattle.bars.specs.Bars.{shown};
ghost use Rattle.bars.specs.Sizes.{place_count};
ghost use Rattle.bars.specs.Claimed.{claimed};
ghost use Rattle.keys.specs.Sames.{name_key_octets, slice_name_key_octets, slice_key_octets};
ghost use Rattle.keys.specs.KeyParts.{parts_view};
ghost use Rattle.timers.specs.Timers.{timers_view, no_timers, timers_on, barred_by, counted_timers, activated_timers, set_on, ruled, room_in};

use super::Timers;
use backoff::octet::TimerValue;
use backoff::timer::BackOffTimer;
use bars::table::{PLACES, Table};
use keys::key::{Key, NameKey, SliceKey, SliceNameKey};
use keys::name::Name;
use keys::network::Network;
use keys::parts::{KeyParts, PartsKey};
use keys::slice::Slice;
use session::timers::{TimerKind, TimerRule};

// The three timers on the keys of some parts.
#[derive(Clone, Copy, PartialEq, Eq, Debug)]
pub struct TimersOn {
    pub t3396: BackOffTimer,
    pub t3584: BackOffTimer,
    pub t3585: BackOffTimer,
}

impl Timers {
    // All timers are stopped.
    pub fn new() -> Timers
        ensures { timers_view result ≡ no_timers }
    {
        let parts = KeyParts {
            network: Network::new([0; 3]),
            slice: Slice::absent(),
            name: Name::absent(),
        };
        Timers {
            t3396: Table::new(NameKey::of_parts(&parts)),
            t3584: Table::new(SliceNameKey::of_parts(&parts)),
            t3585: Table::new(SliceKey::of_parts(&parts)),
        }
    }

    // The timers on the three keys of some parts.
    pub fn on(&self, parts: &KeyParts) -> TimersOn
        ensures { result ≡ timers_on (timers_view self.now) (parts_view parts.now) }
    {
        TimersOn {
            t3396: self.t3396.timer_on(&NameKey::of_parts(parts)),
            t3584: self.t3584.timer_on(&SliceNameKey::of_parts(parts)),
            t3585: self.t3585.timer_on(&SliceKey::of_parts(parts)),
        }
    }

    // The first kind of timer that forbids a request with these parts, if one does.
    pub fn barred_by(&self, parts: &KeyParts) -> Option<TimerKind>
        ensures { result ≡ barred_by (timers_view self.now) (parts_view parts.now) }
    {
        let on = self.on(parts);
        if !on.t3396.permits() {
            Some(TimerKind::T3396)
        } else if !on.t3584.permits() {
            Some(TimerKind::T3584)
        } else if !on.t3585.permits() {
            Some(TimerKind::T3585)
        } else {
            None
        }
    }

    // Takes some seconds off every running timer.
    pub fn count(&mut self, seconds: u32)
        ensures { timers_view self.new ≡ counted_timers seconds (timers_view self.old) }
    {
        self.t3396.count(seconds);
        self.t3584.count(seconds);
        self.t3585.count(seconds);
    }

    // Stops every deactivated timer.
    pub fn lift_deactivated(&mut self)
        ensures { timers_view self.new ≡ activated_timers (timers_view self.old) }
    {
        self.t3396.lift_deactivated();
        self.t3584.lift_deactivated();
        self.t3585.lift_deactivated();
    }

    // Does to the timers what a message that took effect rules, on the keys of its session.
    pub fn apply(&mut self, rule: TimerRule, parts: &KeyParts)
        ensures { timers_view self.new ≡ ruled rule (parts_view parts.now) (timers_view self.old) }
    {
        match rule {
            TimerRule::NoMark => {}
            TimerRule::Mark(TimerKind::T3396, value) => set_on(
                &mut self.t3396,
                NameKey::of_parts(parts),
                value,
            ),
            TimerRule::Mark(TimerKind::T3584, value) => set_on(
                &mut self.t3584,
                SliceNameKey::of_parts(parts),
                value,
            ),
            TimerRule::Mark(TimerKind::T3585, value) => set_on(
                &mut self.t3585,
                SliceKey::of_parts(parts),
                value,
            ),
            TimerRule::LiftAll => {
                self.t3396.lift(&NameKey::of_parts(parts));
                self.t3584.lift(&SliceNameKey::of_parts(parts));
                self.t3585.lift(&SliceKey::of_parts(parts));
            }
        }
    }

    // Whether at most 32 different keys of each kind are claimed, by bars or by others that have these keys.
    pub fn has_room(
        &self,
        names: &[NameKey],
        slice_names: &[SliceNameKey],
        slices: &[SliceKey],
    ) -> bool
        ensures { result ≡ room_in (timers_view self.now) (map name_key_octets names.now) (map slice_name_key_octets slice_names.now) (map slice_key_octets slices.now) }
    {
        fits(&self.t3396, names) && fits(&self.t3584, slice_names) && fits(&self.t3585, slices)
    }
}

// Sets the timer on a key as a timer octet says: zero lifts the bar, seconds start the timer, deactivated deactivates it.
fn set_on<K: Key + Copy>(table: &mut Table<K>, key: K, value: TimerValue)
    ensures after { shown K.Key.octets table.new.places ≡ set_on value (K.Key.octets key) (shown K.Key.octets table.old.places) }
{
    match BackOffTimer::set_to(value) {
        BackOffTimer::Stopped => table.lift(&key),
        timer => {
            let _ = table.impose(key, timer);
        }
    }
}

// Whether at most 32 different keys are claimed, by the bars of a table or by others that have these keys.
fn fits<K: Key + Copy>(table: &Table<K>, keys: &[K]) -> bool
    ensures { result ≡ nat_le (claimed (shown K.Key.octets table.now.places) (map K.Key.octets keys.now)) place_count }
{
    table
        .claimed_with(keys)
        .is_some_and(|claimed| claimed <= PLACES)
}
