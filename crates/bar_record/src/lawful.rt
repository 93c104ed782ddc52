// A kept bar that is lawful, and so has a record.
ghost use Rattle.std.specs.Prelude.{◌≡◌, true};
ghost use Rattle.bar_record.specs.Record.{seconds_kept};

pub mod record;

use crate::kept::KeptBar;

// A kept bar with seconds that can be left of a running timer. Its key is lawful by its type.
#[derive(Clone, Copy, PartialEq, Eq, Debug)]
pub struct LawfulBar {
    pub bar: KeptBar,
    pub ghost lawful: { seconds_kept bar.seconds ≡ true },
}
