ghost use Rattle.std.specs.Prelude.{◌≡◌, true, length};
ghost use Rattle.bars.specs.Bars.{shown, apart};
ghost use Rattle.bars.specs.Sizes.{place_count};

pub mod methods;

use crate::bar::Bar;
use keys::key::Key;

// Places of a table.
pub const PLACES: usize = 32;

// The bars of one kind: at most 32 stand, each at a place of its own, and no two on the same key. The other places are free.
#[derive(Drop)]
pub struct Table<K: Key> {
    places: [Bar<K>; PLACES],
    ghost full: { length places ≡ place_count },
    ghost apart: { apart (shown K.Key.octets places) ≡ true },
}
