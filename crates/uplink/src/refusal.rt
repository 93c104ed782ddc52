// Why an uplink refuses.
ghost use Rattle.std.specs.Prelude.{◌≡◌, Ok, Err};
ghost use Rattle.uplink.specs.Waiting.{send_answer, take_answer};

use crate::queue::{CAPACITY, LONGEST_MESSAGE};

// Why a message is not sent: it has no octets or too many, or no more may wait. The length is looked at first.
#[derive(Clone, Copy, PartialEq, Eq, Debug)]
pub enum SendRefusal {
    Length,
    Full,
}

// Why no message is taken: none waits, or the place is shorter than the oldest.
#[derive(Clone, Copy, PartialEq, Eq, Debug)]
pub enum TakeRefusal {
    Empty,
    Short,
}

// Whether a message of some octets may be sent while some wait.
pub(crate) fn may_send(waiting: usize, octets: usize) -> Result<(), SendRefusal>
    ensures { result ≡ send_answer waiting octets }
{
    if octets == 0 || octets > LONGEST_MESSAGE {
        return Err(SendRefusal::Length);
    }
    if waiting >= CAPACITY {
        return Err(SendRefusal::Full);
    }
    Ok(())
}

// Whether the oldest message, of some octets, may be taken into a place while some wait; and its length.
pub(crate) fn may_take(waiting: usize, octets: usize, place: usize) -> Result<usize, TakeRefusal>
    ensures { result ≡ take_answer waiting octets place }
{
    if waiting == 0 {
        return Err(TakeRefusal::Empty);
    }
    if octets > place {
        return Err(TakeRefusal::Short);
    }
    Ok(octets)
}
