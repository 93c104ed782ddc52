pub mod kept;
pub mod methods;

use bars::table::Table;
use keys::key::{NameKey, SliceKey, SliceNameKey};

// The three tables of a handset's back-off timers. No two standing bars of a kind have the same key.
#[derive(Drop)]
pub struct Timers {
    t3396: Table<NameKey>,
    t3584: Table<SliceNameKey>,
    t3585: Table<SliceKey>,
}
