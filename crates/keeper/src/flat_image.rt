// All records in one array, one behind the other.
ghost use Rattle.std.specs.Prelude.{◌≡◌, ℕ, ◌<◌, [], length, slice_index_or};
ghost use Rattle.keeper.specs.Sizes.{record_count, record_length};
ghost use Rattle.keeper.specs.Records.{blank_records};

use crate::{Keeper, KeeperRefusal, RECORD_LENGTH, RECORDS, admit};

#[derive(Drop)]
pub struct FlatImage {
    records: [[u8; RECORD_LENGTH]; RECORDS],
    ghost whole: { length records ≡ record_count },
    ghost sizes: { ((k : ℕ) → k < record_count → length (slice_index_or records k []) ≡ record_length) },
}

impl FlatImage {
    // All records are zeros.
    pub fn new() -> FlatImage
        ensures records { result.records ≡ blank_records }
    {
        FlatImage {
            records: [[0; RECORD_LENGTH]; RECORDS],
        }
    }
}

impl Keeper for FlatImage {
    ghost records = { λ s. s.records };

    ghost count = { λ s. s.whole };

    ghost sizes = { λ s. s.sizes };

    fn write(&mut self, number: u8, content: &[u8]) -> Result<(), KeeperRefusal> {
        admit(number, content.len())?;
        self.records[usize::from(number)] = content.try_into().unwrap();
        Ok(())
    }

    fn read(&self, number: u8, place: &mut [u8]) -> Result<(), KeeperRefusal> {
        admit(number, place.len())?;
        place.copy_from_slice(&self.records[usize::from(number)]);
        Ok(())
    }
}
