// Two uplinks that begin alike answer alike, whatever their makes.
ghost use Rattle.std.specs.Prelude.{◌≡◌, ◌↔◌, true, IsTrue};
ghost use Rattle.uplink.specs.Asked.{answer_to, waiting_after, waiting_after_all, AnsweredAlike};

use crate::queue::{LONGEST_MESSAGE, Uplink};
use crate::refusal::{SendRefusal, TakeRefusal};

// A call on an uplink: how many wait; a message to be sent; the oldest to be taken into a place of some octets, 128 at most.
#[derive(Clone, Copy)]
pub enum UplinkCall<'a> {
    Count,
    Send(&'a [u8]),
    Take(usize),
}

// The answer to a call, and to a taking also the place, with zeros where nothing was put.
#[derive(Clone, Copy, PartialEq, Eq)]
enum UplinkAnswer {
    Counted(usize),
    Sent(Result<(), SendRefusal>),
    Taken(Result<usize, TakeRefusal>, [u8; LONGEST_MESSAGE]),
}

// Makes one call.
fn answer<U: Uplink>(uplink: &mut U, call: UplinkCall<'_>) -> UplinkAnswer
    ensures answer { result ≡ answer_to (U.Uplink.waiting uplink.old) call.entry }
    ensures queue { U.Uplink.waiting uplink.new ≡ waiting_after (U.Uplink.waiting uplink.old) call.entry }
{
    match call {
        UplinkCall::Count => UplinkAnswer::Counted(uplink.count()),
        UplinkCall::Send(message) => UplinkAnswer::Sent(uplink.send(message)),
        UplinkCall::Take(room) => {
            let mut place = [0; LONGEST_MESSAGE];
            let taken = uplink.take(&mut place[..room.min(LONGEST_MESSAGE)]);
            UplinkAnswer::Taken(taken, place)
        }
    }
}

// Makes the same calls on both, and answers whether they answered alike throughout: where the same messages wait at the
// beginning they do, and the same messages wait at the end.
pub fn answer_alike<A: Uplink, B: Uplink>(
    one: &mut A,
    other: &mut B,
    calls: &[UplinkCall<'_>],
) -> bool
    ensures answer { A.Uplink.waiting one.old ≡ B.Uplink.waiting other.old → result ≡ true }
    ensures calls { IsTrue result ↔ AnsweredAlike (A.Uplink.waiting one.old) (B.Uplink.waiting other.old) calls.now }
    ensures one { A.Uplink.waiting one.new ≡ waiting_after_all (A.Uplink.waiting one.old) calls.now }
    ensures other { B.Uplink.waiting other.new ≡ waiting_after_all (B.Uplink.waiting other.old) calls.now }
    ensures queues { A.Uplink.waiting one.old ≡ B.Uplink.waiting other.old → A.Uplink.waiting one.new ≡ B.Uplink.waiting other.new }
{
    let mut alike = true;
    for call in calls {
        let same = answer(one, *call) == answer(other, *call);
        alike &= same;
    }
    alike
}
