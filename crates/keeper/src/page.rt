// One page of entries.
ghost use Rattle.std.specs.Prelude.{◌≡◌, ℕ, ◌<◌, ◌≤◌, ◌++◌, ◌∷◌, ◌==◌, [], option_copied};
ghost use Rattle.arrayvec.specs.ArrayVec.{array_vec_len};
ghost use Rattle.keeper.specs.Sizes.{record_count, page_entries};
ghost use Rattle.keeper.specs.Layout.{latest, latest_entry};

use crate::entry::Entry;
use crate::{PAGE_ENTRIES, RECORD_LENGTH, RECORDS};
use arrayvec::ArrayVec;

// The entries in the order of their writing.
#[derive(Drop)]
pub(crate) struct Page {
    entries: ArrayVec<Entry, PAGE_ENTRIES>,
}

impl Page {
    // No entry.
    pub(crate) fn new() -> Page
        ensures { result.entries.items ≡ [] }
    {
        Page {
            entries: ArrayVec::new(),
        }
    }

    // Whether there is no room for one entry more.
    pub(crate) fn is_full(&self) -> bool
        ensures full { result ≡ (array_vec_len self.now.entries == page_entries) }
        ensures fits { array_vec_len self.now.entries ≤ page_entries }
    {
        self.entries.is_full()
    }

    // The latest entry of a record.
    fn find(&self, number: u8) -> Option<&Entry>
        ensures { option_copied result ≡ latest_entry self.now.entries.items number }
    {
        self.entries
            .iter()
            .rev()
            .find(|entry| entry.number == number)
    }

    // The content of a record: that of its latest entry, or zeros.
    pub(crate) fn content(&self, number: u8) -> [u8; RECORD_LENGTH]
        ensures { result ≡ latest self.now.entries.items number }
    {
        match self.find(number) {
            Some(entry) => entry.content,
            None => [0; RECORD_LENGTH],
        }
    }

    // One entry more.
    pub(crate) fn append(&mut self, entry: Entry)
        requires { array_vec_len self.old.entries < page_entries }
        ensures { self.new.entries.items ≡ self.old.entries.items ++ entry ∷ [] }
    {
        self.entries.push(entry);
    }

    // Takes over the latest entry of each record of another page, in place of all that stood here.
    pub(crate) fn gather(&mut self, from: &Page)
        ensures room { array_vec_len self.new.entries ≤ record_count }
        ensures records { (k : ℕ) → k < record_count → latest self.new.entries.items k ≡ latest from.now.entries.items k }
    {
        self.entries.clear();
        for number in 0..RECORDS as u8 {
            if let Some(entry) = from.find(number) {
                self.append(*entry);
            }
        }
    }
}
