// Which kept bars are lawful, and the record of one that is.
ghost use Rattle.std.specs.Prelude.{◌≡◌};
ghost use Rattle.std.specs.Option.{option_map};
ghost use Rattle.bar_record.specs.Record.{kept_view, written};
ghost use Rattle.bar_record.specs.Lawful.{if_lawful, lawful_view};

use super::LawfulBar;
use crate::kept::{KeptBar, RECORD_LENGTH, is_kept};

impl KeptBar {
    // The bar, where its seconds can be kept.
    pub fn lawful(self) -> Option<LawfulBar>
        ensures { option_map lawful_view result ≡ if_lawful (kept_view self) }
    {
        if is_kept(self.seconds) {
            Some(LawfulBar { bar: self })
        } else {
            None
        }
    }
}

impl LawfulBar {
    // The 128 octets of the bar's record.
    pub fn record(&self) -> [u8; RECORD_LENGTH]
        ensures { result ≡ written (lawful_view self.now) }
    {
        self.bar.parts().record()
    }
}
