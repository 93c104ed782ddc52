// Storing the kept set of bars.
ghost use Rattle.std.specs.Prelude.{◌≡◌, ◌+◌, ◌<◌, ◌≤◌, true, ◌++◌, map, length, take, drop, IfSome, OnSome};
ghost use Rattle.std.specs.Option.{option_map};
ghost use Rattle.bar_record.specs.Lawful.{lawful_view};
ghost use Rattle.bar_record.specs.Record.{written};
ghost use Rattle.timers.specs.Timers.{timers_view};
ghost use Rattle.kept_set.specs.Trailer.{trailer_number, trailer};
ghost use Rattle.kept_set.specs.Storing.{number_before, put_before, kept_bars, stored};

use crate::TRAILER;
use bar_record::lawful::LawfulBar;
use bars::table::PLACES;
use keeper::{Keeper, RECORD_LENGTH};
use keys::card::Card;
use timers::timers::Timers;

// Puts the record of a bar, if there is one, in front of others; answers the number of the first.
fn put_before<K: Keeper>(keeper: &mut K, first: u8, bar: Option<LawfulBar>) -> u8
    requires first { OnSome bar (0 < first) }
    requires last { first ≤ trailer_number }
    ensures answer { result ≡ number_before (option_map lawful_view bar) first }
    ensures records { K.Keeper.records keeper.new ≡ put_before (option_map lawful_view bar) first (K.Keeper.records keeper.old) }
{
    match bar {
        Some(bar) => {
            let _ = keeper.write(first - 1, &bar.record());
            first - 1
        }
        None => first,
    }
}

// The trailer: the card in octets 0 to 7, the number of the kept bars in octet 8, zeros.
fn trailer_of(card: &Card, n: u8) -> [u8; RECORD_LENGTH]
    ensures { result ≡ trailer card.now.octets n }
{
    let mut record = [0; RECORD_LENGTH];
    record[0..8].copy_from_slice(card.octets());
    record[8] = n;
    record
}

// Puts the records of the kept bars before the trailer, from the last of them to the first; answers the number of the first.
fn store_bars<K: Keeper>(keeper: &mut K, timers: &Timers) -> u8
    ensures first { result + length (kept_bars (timers_view timers.now)) ≡ trailer_number }
    ensures records { K.Keeper.records keeper.new ≡ take result (K.Keeper.records keeper.old) ++ (map written (kept_bars (timers_view timers.now)) ++ drop trailer_number (K.Keeper.records keeper.old)) }
{
    let mut first = TRAILER;
    for place in (0..3 * PLACES).rev() {
        first = put_before(keeper, first, timers.running_at(place));
    }
    first
}

// Stores the running bars in the last records before the trailer, and the card and their number in the trailer; answers
// their number. The other records stay.
pub fn store<K: Keeper>(keeper: &mut K, card: &Card, timers: &Timers) -> u8
    ensures answer { result ≡ length (kept_bars (timers_view timers.now)) }
    ensures records { K.Keeper.records keeper.new ≡ stored card.now.octets (timers_view timers.now) (K.Keeper.records keeper.old) }
{
    let n = TRAILER - store_bars(keeper, timers);
    let _ = keeper.write(TRAILER, &trailer_of(card, n));
    n
}
