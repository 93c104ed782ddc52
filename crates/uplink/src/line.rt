// The uplink of one line of octets.
ghost use Rattle.std.specs.Prelude.{◌≡◌, ℕ, ◌<◌, ◌≤◌, [], ◌∷◌, ◌++◌, length, drop, slice_index_or};
ghost use Rattle.std.specs.List.{flat_map};
ghost use Rattle.uplink.specs.Lined.{length_parsed};
ghost use Rattle.uplink.specs.Makes.{framed, parsed, size};
ghost use Rattle.uplink.specs.Sizes.{capacity, longest_message};
ghost use Rattle.uplink.specs.Waiting.{oldest};
ghost use Rattle.std.proofs.Common.{arith};

use crate::queue::{CAPACITY, LONGEST_MESSAGE, Uplink};
use crate::refusal::{SendRefusal, TakeRefusal, may_send, may_take};
use arrayvec::ArrayVec;

// The octets of a line: a length in two octets and a message, as often as messages may wait.
pub const LINE_LENGTH: usize = (2 + LONGEST_MESSAGE) * CAPACITY;

// One line of octets: each message behind its length in two octets, oldest first.
#[derive(Drop)]
pub struct Line {
    line: ArrayVec<u8, LINE_LENGTH>,
    count: usize,
    ghost few: { count ≤ capacity },
    ghost whole: { line.items ≡ flat_map framed (parsed line.items count) },
    ghost short: { ((k : ℕ) → length (slice_index_or (parsed line.items count) k []) ≤ longest_message) },
}

impl Line {
    // A line on which nothing waits.
    #[tactic(auto, unfolding(crate::specs::Makes::parsed))]
    pub fn new() -> Line
        ensures { parsed result.line.items result.count ≡ [] }
    {
        Line {
            line: ArrayVec::new(),
            count: 0,
        }
    }

    // The length of the oldest message, if one waits: the one that the line begins with.
    fn first_length(&self) -> usize
        ensures { result ≡ length (oldest (parsed self.now.line.items self.now.count)) }
    {
        self.line
            .first_chunk()
            .map_or(0, |length| usize::from(u16::from_be_bytes(*length)))
    }
}

#[tactic(auto, using(crate::proofs::LineSteps::line_steps))]
impl Uplink for Line {
    ghost waiting = { λ s. parsed s.line.items s.count };

    ghost few = { λ s. let f = s.few in omega (arith, length_parsed s.line.items s.count) };

    ghost short = { λ s. s.short };

    fn count(&self) -> usize {
        self.count
    }

    fn send(&mut self, message: &[u8]) -> Result<(), SendRefusal> {
        may_send(self.count, message.len())?;
        let length = (message.len() as u16).to_be_bytes();
        self.line.try_extend_from_slice(&length).unwrap();
        self.line.try_extend_from_slice(message).unwrap();
        self.count += 1;
        Ok(())
    }

    fn take(&mut self, place: &mut [u8]) -> Result<usize, TakeRefusal> {
        let n = may_take(self.count, self.first_length(), place.len())?;
        place[..n].copy_from_slice(&self.line[2..2 + n]);
        self.line.drain(..2 + n);
        self.count -= 1;
        Ok(n)
    }
}
