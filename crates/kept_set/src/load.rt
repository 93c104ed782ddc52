// Loading the kept set of bars.
ghost use Rattle.std.specs.Prelude.{◌≡◌, ◌≤◌, [], slice_index_or};
ghost use Rattle.std.specs.Option.{option_map};
ghost use Rattle.bar_record.specs.Reading.{told};
ghost use Rattle.timers.specs.Timers.{timers_view, no_timers};
ghost use Rattle.kept_set.specs.Trailer.{trailer_number, last_records};
ghost use Rattle.kept_set.specs.Loading.{with_record, loaded, kept_timers, or_none, known_seconds, restored};

use crate::TRAILER;
use bar_record::read::read;
use keeper::{Keeper, RECORD_LENGTH};
use keys::card::Card;
use timers::timers::Timers;

// The record with a number.
fn record_at<K: Keeper>(keeper: &K, number: u8) -> [u8; RECORD_LENGTH]
    requires { number ≤ trailer_number }
    ensures { result ≡ slice_index_or (K.Keeper.records keeper.now) number [] }
{
    let mut place = [0; RECORD_LENGTH];
    let _ = keeper.read(number, &mut place);
    place
}

// The timers with the bar of a record more; none where it is the record of no lawful bar, or the timers do not take it.
fn with_record(timers: Timers, record: &[u8]) -> Option<Timers>
    ensures { option_map timers_view result ≡ with_record (told «record».now) (timers_view timers) }
{
    let mut timers = timers;
    let bar = read(record)?;
    if timers.restore(&bar) {
        Some(timers)
    } else {
        None
    }
}

// The bars of the last records before the trailer.
fn load_last<K: Keeper>(keeper: &K, n: u8) -> Option<Timers>
    requires { n ≤ trailer_number }
    ensures { option_map timers_view result ≡ loaded (last_records n (K.Keeper.records keeper.now)) no_timers }
{
    let mut timers = Timers::new();
    for number in TRAILER - n..TRAILER {
        timers = with_record(timers, &record_at(keeper, number))?;
    }
    Some(timers)
}

// The kept set of bars, restored as they were kept; none where it is of another card or not lawful.
pub fn load<K: Keeper>(keeper: &K, card: &Card) -> Option<Timers>
    ensures { option_map timers_view result ≡ kept_timers card.now.octets (K.Keeper.records keeper.now) }
{
    let trailer = record_at(keeper, TRAILER);
    let n = trailer[8];
    if card.octets() == &trailer[..8] && n <= TRAILER {
        load_last(keeper, n)
    } else {
        None
    }
}

// The timers of the kept set; all stopped where none is restored.
fn loaded_or_new<K: Keeper>(keeper: &K, card: &Card) -> Timers
    ensures { timers_view result ≡ or_none (kept_timers card.now.octets (K.Keeper.records keeper.now)) }
{
    load(keeper, card).unwrap_or_else(|| Timers::new())
}

// The timers that a switched-on handset restores: those of the kept set less the time off. Unknown time takes off nothing.
pub fn restore<K: Keeper>(keeper: &K, card: &Card, off: Option<u32>) -> Timers
    ensures { timers_view result ≡ restored card.now.octets off (K.Keeper.records keeper.now) }
{
    let mut timers = loaded_or_new(keeper, card);
    timers.count(off.unwrap_or(0));
    timers
}
