// Two pages of entries, of which one is current: there the latest entry of a record counts.
ghost use Rattle.std.specs.Prelude.{◌≡◌, ◌<◌};
ghost use Rattle.keeper.specs.Sizes.{record_count};
ghost use Rattle.keeper.specs.Layout.{listed, latest, Replaced};
ghost use Rattle.keeper.specs.Records.{blank_records};
ghost use Rattle.keeper.specs.Listed.{count_listed, size_listed};

use crate::entry::Entry;
use crate::page::Page;
use crate::{Keeper, KeeperRefusal, admit};
use std::mem;

#[derive(Drop)]
pub struct Pages {
    current: Page,
    spare: Page,
}

impl Pages {
    // All records are zeros.
    #[tactic(auto, using(crate::proofs::Kept::blank_listed))]
    pub fn new() -> Pages
        ensures records { listed (latest result.current.entries.items) ≡ blank_records }
    {
        Pages {
            current: Page::new(),
            spare: Page::new(),
        }
    }

    // Adds an entry to the current page; where that one is full, the other one takes over what it holds, and is current.
    fn store(&mut self, entry: Entry)
        ensures { Replaced (latest self.old.current.entries.items) (latest self.new.current.entries.items) entry.number entry.content }
    {
        if self.current.is_full() {
            self.spare.gather(&self.current);
            mem::swap(&mut self.current, &mut self.spare);
        }
        self.current.append(entry);
    }
}

#[tactic(auto, using(crate::proofs::Kept::replaced_listed, crate::specs::Listed::told_listed))]
impl Keeper for Pages {
    ghost records = { λ s. listed (latest s.current.entries.items) };

    ghost count = { λ s. count_listed (latest s.current.entries.items) };

    ghost sizes = { λ s. size_listed s.current.entries.items };

    fn write(&mut self, number: u8, content: &[u8]) -> Result<(), KeeperRefusal> {
        admit(number, content.len())?;
        self.store(Entry {
            number,
            content: content.try_into().unwrap(),
        });
        Ok(())
    }

    fn read(&self, number: u8, place: &mut [u8]) -> Result<(), KeeperRefusal> {
        admit(number, place.len())?;
        place.copy_from_slice(&self.current.content(number));
        Ok(())
    }
}
