// The uplink of eight slots.
ghost use Rattle.std.specs.Prelude.{◌≡◌, ℕ, ◌<◌, ◌≤◌, [], ◌∷◌, ◌++◌, length, drop, slice_index_or};
ghost use Rattle.arrayvec.specs.ArrayVec.{array_vec_len};
ghost use Rattle.uplink.specs.Makes.{shown};
ghost use Rattle.uplink.specs.Sizes.{capacity, longest_message};
ghost use Rattle.uplink.specs.Waiting.{oldest};
ghost use Rattle.std.proofs.Common.{arith};
ghost use Rattle.std.proofs.lemmas.List.{length-map};

use crate::queue::{CAPACITY, LONGEST_MESSAGE, Uplink};
use crate::refusal::{SendRefusal, TakeRefusal, may_send, may_take};
use arrayvec::ArrayVec;

// The octets of a message.
type Message = ArrayVec<u8, LONGEST_MESSAGE>;

// Eight slots, the messages moving up as the oldest is taken.
#[derive(Drop)]
pub struct Slots {
    messages: ArrayVec<Message, CAPACITY>,
    ghost few: { array_vec_len messages ≤ capacity },
    ghost short: { ((k : ℕ) → length (slice_index_or (shown messages) k []) ≤ longest_message) },
}

impl Slots {
    // Slots in which nothing waits.
    pub fn new() -> Slots
        ensures { shown result.messages ≡ [] }
    {
        Slots {
            messages: ArrayVec::new(),
        }
    }

    // The length of the oldest message, if one waits.
    fn first_length(&self) -> usize
        ensures { result ≡ length (oldest (shown self.now.messages)) }
    {
        self.messages.first().map_or(0, |oldest| oldest.len())
    }
}

impl Uplink for Slots {
    ghost waiting = { λ s. shown s.messages };

    ghost few = { λ s. let f = s.few in omega (arith, length-map s.messages.items (λ m. m.items)) };

    ghost short = { λ s. s.short };

    fn count(&self) -> usize {
        self.messages.len()
    }

    fn send(&mut self, message: &[u8]) -> Result<(), SendRefusal> {
        may_send(self.messages.len(), message.len())?;
        self.messages.push(Message::try_from(message).unwrap());
        Ok(())
    }

    fn take(&mut self, place: &mut [u8]) -> Result<usize, TakeRefusal> {
        let n = may_take(self.messages.len(), self.first_length(), place.len())?;
        let oldest = self.messages.remove(0);
        place[..n].copy_from_slice(&oldest);
        Ok(n)
    }
}
