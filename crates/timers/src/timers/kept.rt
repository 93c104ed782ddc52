// The kept bars among a handset's timers: a kept bar restored, and the bars that are to be kept.
ghost use Rattle.std.specs.Prelude.{◌≡◌, if◌then◌else◌, Some, None, slice_index_or};
ghost use Rattle.std.specs.Option.{option_map};
ghost use Rattle.backoff.specs.declared.timer.BackOffTimer.TheVariants.{Running};
ghost use Rattle.bars.specs.Bars.{shown, imposed};
ghost use Rattle.bar_record.specs.Lawful.{lawful_view};
ghost use Rattle.bar_record.specs.Record.{kind_number, key_octets, kept_view};
ghost use Rattle.timers.specs.Timers.{timers_view};
ghost use Rattle.timers.specs.Kept.{takes, takes_kept, with_kept, standing_in, kept_timer, kept_at, kept_places};

use super::Timers;
use backoff::timer::BackOffTimer;
use bar_record::kept::{KeptAs, KeptBar, KeptKey};
use bar_record::lawful::LawfulBar;
use bars::bar::is_standing;
use bars::table::{PLACES, Table};
use keys::key::Key;

// Starts the timer on a key, where none stands on it and fewer than 32 stand; answers whether.
fn start_on<K: Key + Copy>(table: &mut Table<K>, key: K, seconds: u32) -> bool
    ensures answer { result ≡ takes (K.Key.octets key) (shown K.Key.octets table.old.places) }
    ensures after { shown K.Key.octets table.new.places ≡ (if result then imposed (K.Key.octets key) (Running seconds) (shown K.Key.octets table.old.places) else shown K.Key.octets table.old.places) }
{
    if is_standing(table.timer_on(&key)) {
        return false;
    }
    if table.standing() >= PLACES {
        return false;
    }
    table.impose(key, BackOffTimer::Running(seconds))
}

// What is kept of the timer on a key.
fn kept_of(key: KeptKey, timer: BackOffTimer) -> Option<LawfulBar>
    ensures { option_map lawful_view result ≡ kept_timer (kind_number key) (key_octets key) timer }
{
    match timer {
        BackOffTimer::Running(seconds) => KeptBar { key, seconds }.lawful(),
        _ => None,
    }
}

// The bar to keep at a place of a table.
fn bar_in<K: KeptAs + Copy>(table: &Table<K>, place: usize) -> Option<LawfulBar>
    ensures { option_map lawful_view result ≡ kept_at K.KeptAs.kind (shown K.Key.octets table.now.places) place }
{
    let bar = table.bar_at(place)?;
    kept_of(bar.key.kept(), bar.timer)
}

impl Timers {
    // Restores a kept bar, running with its seconds, where no bar of its kind stands on its key and fewer than 32 of
    // its kind stand; answers whether. A refusal leaves the timers alone.
    pub fn restore(&mut self, bar: &KeptBar) -> bool
        ensures answer { result ≡ takes_kept (kept_view bar.now) (timers_view self.old) }
        ensures after { timers_view self.new ≡ (if result then with_kept (kept_view bar.now) (timers_view self.old) else timers_view self.old) }
    {
        match bar.key {
            KeptKey::T3396(key) => start_on(&mut self.t3396, key, bar.seconds),
            KeptKey::T3584(key) => start_on(&mut self.t3584, key, bar.seconds),
            KeptKey::T3585(key) => start_on(&mut self.t3585, key, bar.seconds),
        }
    }

    // How many bars stand, of all three kinds.
    pub fn standing(&self) -> usize
        ensures { result ≡ standing_in (timers_view self.now) }
    {
        self.t3396.standing() + self.t3584.standing() + self.t3585.standing()
    }

    // The bar to keep at one of the 96 places of T3396, T3584 and T3585, one table after the other.
    pub fn running_at(&self, place: usize) -> Option<LawfulBar>
        ensures { option_map lawful_view result ≡ slice_index_or (kept_places (timers_view self.now)) place None }
    {
        if place < PLACES {
            bar_in(&self.t3396, place)
        } else if place < 2 * PLACES {
            bar_in(&self.t3584, place - PLACES)
        } else {
            bar_in(&self.t3585, place - 2 * PLACES)
        }
    }
}
