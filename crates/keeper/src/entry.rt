// An entry of a page.
ghost use Rattle.std.specs.Prelude.{◌≡◌, length};
ghost use Rattle.keeper.specs.Sizes.{record_length};

use crate::RECORD_LENGTH;

// A record's number and its content.
#[derive(Clone, Copy)]
pub(crate) struct Entry {
    pub(crate) number: u8,
    pub(crate) content: [u8; RECORD_LENGTH],
    ghost whole: { length content ≡ record_length },
}

impl Default for Entry {
    fn default() -> Entry {
        Entry {
            number: 0,
            content: [0; RECORD_LENGTH],
        }
    }
}
