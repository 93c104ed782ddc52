// What every uplink does, whatever its make.
ghost use Rattle.std.specs.Prelude.{◌≡◌, ℕ, ◌<◌, ◌≤◌, List, [], length, slice_index_or};
ghost use Rattle.uplink.specs.Sizes.{capacity, longest_message};
ghost use Rattle.uplink.specs.Waiting.{send_answer, after_send, oldest, take_answer, after_take, place_after};

use crate::refusal::{SendRefusal, TakeRefusal};

// As many messages may wait.
pub const CAPACITY: usize = 8;

// A message has at most so many octets.
pub const LONGEST_MESSAGE: usize = 128;

// A queue of messages to the network. It means the list of waiting messages, oldest first.
pub trait Uplink {
    ghost waiting: { Self → List (List ℕ) };

    // How many messages wait.
    fn count(&self) -> usize
        ensures { result ≡ length (waiting self.now) };

    // Adds a message at the end.
    fn send(&mut self, message: &[u8]) -> Result<(), SendRefusal>
        ensures answer { result ≡ send_answer (length (waiting self.old)) (length message.now) }
        ensures queue { waiting self.new ≡ after_send (waiting self.old) message.now };

    // Removes the oldest message, and puts it at the front of the place.
    fn take(&mut self, place: &mut [u8]) -> Result<usize, TakeRefusal>
        ensures answer { result ≡ take_answer (length (waiting self.old)) (length (oldest (waiting self.old))) (length place.old) }
        ensures queue { waiting self.new ≡ after_take (waiting self.old) place.old }
        ensures place { place.new ≡ place_after (waiting self.old) place.old };

    ghost few: { (s : Self) → length (waiting s) ≤ capacity };

    ghost short: { (s : Self) (k : ℕ) → length (slice_index_or (waiting s) k []) ≤ longest_message };
}
