// Records that outlive a switch-off: the trait of their keepers.
#![tactic(auto)]

ghost use Rattle.std.specs.Prelude.{◌≡◌, ℕ, ◌<◌, List, [], length, slice_index_or};
ghost use Rattle.keeper.specs.Sizes.{record_count, record_length};
ghost use Rattle.keeper.specs.Records.{answered, records_after, place_after};

pub mod alike;
mod entry;
pub mod flat_image;
pub mod makes;
mod page;
pub mod pages;

// How many records there are, numbered from 0.
pub const RECORDS: usize = 97;
// Octets of a record.
pub const RECORD_LENGTH: usize = 128;
// Entries of a page.
pub const PAGE_ENTRIES: usize = 128;

// Why a record is neither written nor read: there is none with this number; its length is another.
#[derive(Clone, Copy, PartialEq, Eq, Debug)]
pub enum KeeperRefusal {
    Number,
    Length,
}

// A keeper of records. A refusal leaves the records and the caller's place alone.
pub trait Keeper {
    ghost records: { Self → List (List ℕ) };

    // Replaces a record.
    fn write(&mut self, number: u8, content: &[u8]) -> Result<(), KeeperRefusal>
        ensures answer { result ≡ answered number (length content.now) }
        ensures records { records self.new ≡ records_after (records self.old) number content.now };

    // Tells a record.
    fn read(&self, number: u8, place: &mut [u8]) -> Result<(), KeeperRefusal>
        ensures answer { result ≡ answered number (length place.old) }
        ensures place { place.new ≡ place_after (records self.now) number place.old };

    ghost count: { (s : Self) → length (records s) ≡ record_count };

    ghost sizes: { (s : Self) (k : ℕ) → k < record_count → length (slice_index_or (records s) k []) ≡ record_length };
}

// Whether there is a record of this number and length.
pub(crate) fn admit(number: u8, length: usize) -> Result<(), KeeperRefusal>
    ensures answer { result ≡ answered number «length» }
{
    if usize::from(number) >= RECORDS {
        return Err(KeeperRefusal::Number);
    }
    if length != RECORD_LENGTH {
        return Err(KeeperRefusal::Length);
    }
    Ok(())
}
