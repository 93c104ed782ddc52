// The two makes beside each other, from the beginning.
ghost use Rattle.std.specs.Prelude.{◌≡◌, true};

use crate::Keeper;
use crate::alike::{KeeperCall, answer_alike};
use crate::flat_image::FlatImage;
use crate::pages::Pages;

// A new flat image and new pages answer every sequence of calls alike.
pub fn makes_alike(calls: &[KeeperCall<'_>]) -> bool
    ensures law { result ≡ true }
{
    let mut image = FlatImage::new();
    let mut pages = Pages::new();
    answer_alike(&mut image, &mut pages, calls)
}
