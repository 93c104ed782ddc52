// Reading the record of a bar.
ghost use Rattle.std.specs.Prelude.{◌≡◌, ℕ, ◌+◌, ◌^◌, ◌<◌, ◌≤◌, true, List, length, Some, Decides, slice_index};
ghost use Rattle.keys.specs.Lengths.{name_length, slice_length, slice_held};
ghost use Rattle.keys.specs.Parts.{name_octets, slice_octets};
ghost use Rattle.std.specs.Option.{option_map};
ghost use Rattle.bar_record.specs.Record.{kept_view, seconds_octet, seconds_kept, written};
ghost use Rattle.bar_record.specs.Reading.{told};
ghost use Rattle.bar_record.specs.Answers.{Stands, key_made, ReadExactly, ReadsBack};

use crate::kept::{KeptBar, KeptKey, RECORD_LENGTH};
use keys::key::{NameKey, SliceKey, SliceNameKey};
use keys::name::Name;
use keys::network::Network;
use keys::slice::Slice;

// The slice of some octets, where these are of a lawful number.
fn slice_of(octets: &[u8]) -> Option<Slice>
    ensures { slice_length (length octets.now) ≡ true → option_map slice_octets result ≡ Some octets.now }
{
    Slice::new(Some(octets)).ok()
}

// The name of some octets, where these are of a lawful number.
fn name_of(octets: &[u8]) -> Option<Name>
    ensures { name_length (length octets.now) ≡ true → option_map name_octets result ≡ Some octets.now }
{
    Name::new(Some(octets)).ok()
}

// The slice that a record may have: its length in octet 4, its octets from 5 on.
fn slice_in(record: &[u8; RECORD_LENGTH]) -> Option<Slice>
    ensures { (xs : List ℕ) → slice_held (length xs) ≡ true → slice_index «record».now 4 ≡ length xs → Stands «record».now 5 xs → option_map slice_octets result ≡ Some xs }
{
    match usize::from(record[4]) {
        0 => Some(Slice::absent()),
        len @ 1..=8 => slice_of(&record[5..5 + len]),
        _ => None,
    }
}

// The name that a record may have: its length in octet 13, its octets from 14 on.
fn name_in(record: &[u8; RECORD_LENGTH]) -> Option<Name>
    ensures { (xs : List ℕ) → length xs ≤ 100 → slice_index «record».now 13 ≡ length xs → Stands «record».now 14 xs → option_map name_octets result ≡ Some xs }
{
    match usize::from(record[13]) {
        0 => Some(Name::absent()),
        len @ 1..=100 => name_of(&record[14..14 + len]),
        _ => None,
    }
}

// The network of a record.
fn network_in(record: &[u8; RECORD_LENGTH]) -> Network
    ensures { (xs : List ℕ) → length xs ≡ 3 → Stands «record».now 1 xs → result.octets ≡ xs }
{
    Network::new([record[1], record[2], record[3]])
}

// The seconds of a record.
fn seconds_in(record: &[u8; RECORD_LENGTH]) -> u32
    ensures { (s : ℕ) → s < 2 ^ 32 → ((i : ℕ) → i < 4 → slice_index «record».now (114 + i) ≡ seconds_octet s i) → result ≡ s }
{
    16_777_216 * u32::from(record[114])
        + 65_536 * u32::from(record[115])
        + 256 * u32::from(record[116])
        + u32::from(record[117])
}

// The key of a kind, of the parts that it has.
fn key_of(kind: u8, network: Network, slice: Slice, name: Name) -> Option<KeptKey>
    ensures { result ≡ key_made kind network slice name }
{
    match kind {
        1 => Some(KeptKey::T3396(NameKey { name })),
        2 => Some(KeptKey::T3584(SliceNameKey {
            network,
            slice,
            name,
        })),
        3 => Some(KeptKey::T3585(SliceKey { network, slice })),
        _ => None,
    }
}

// The bar that a record may be of, by the octets at the fixed places; the others are not looked at.
fn candidate(record: &[u8; RECORD_LENGTH]) -> Option<KeptBar>
    ensures { ReadsBack «record».now result }
{
    let slice = slice_in(record)?;
    let name = name_in(record)?;
    let key = key_of(record[0], network_in(record), slice, name)?;
    Some(KeptBar {
        key,
        seconds: seconds_in(record),
    })
}

// Whether a record is that of a lawful bar.
fn is_record_of(record: &[u8; RECORD_LENGTH], bar: &KeptBar) -> bool
    ensures { Decides result ((«record».now ≡ written (kept_view bar.now)) × (seconds_kept bar.now.seconds ≡ true)) }
{
    match bar.lawful() {
        Some(bar) => *record == bar.record(),
        None => false,
    }
}

// Reads a record: the bar, if the record is lawful. What is read is a lawful bar whose record this is; what is not read
// is the record of no lawful bar.
pub fn read(record: &[u8]) -> Option<KeptBar>
    ensures exact { ReadExactly «record».now result }
    ensures back { ReadsBack «record».now result }
    ensures told { option_map kept_view result ≡ told «record».now }
{
    let whole = record.as_array::<RECORD_LENGTH>()?;
    let bar = candidate(whole)?;
    if is_record_of(whole, &bar) {
        Some(bar)
    } else {
        None
    }
}
