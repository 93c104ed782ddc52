// The answers of the calls.
ghost use Rattle.std.specs.Prelude.{◌≡◌};
ghost use Rattle.rules.specs.Answers.{refusal_number};
ghost use Rattle.rules.specs.declared.answer.TakeInRefusal.TheVariants.{Message};

use dl_nas::message::MessageFault;
use requests::question::Question;
use requests::state::Tally;
use session::outcome::{Ended, Reply};
use session::timers::TimerRule;
use timers::timers::methods::TimersOn;

// What a message that was taken in did: the identity that it names, how a request ended, its mark or lifting, the reply.
#[derive(Clone, Copy, PartialEq, Debug)]
pub struct TakenIn {
    pub identity: u8,
    pub ended: Ended,
    pub rule: TimerRule,
    pub reply: Option<Reply>,
}

// Why a message is not taken in: the reader's fault whole (14 to 18), or a reply is due and eight messages wait (12).
#[derive(Clone, Copy, PartialEq, Debug)]
pub enum TakeInRefusal {
    Message(MessageFault),
    Waiting,
}

impl From<MessageFault> for TakeInRefusal {
    ghost from_gives = { λ x y. y ≡ Message x };

    fn from(fault: MessageFault) -> TakeInRefusal {
        TakeInRefusal::Message(fault)
    }
}

impl TakeInRefusal {
    // The number of the question that was answered no.
    pub fn number(&self) -> u8
        ensures { result ≡ refusal_number self.now }
    {
        match *self {
            TakeInRefusal::Message(fault) => fault.number(),
            TakeInRefusal::Waiting => 12,
        }
    }
}

// What a time reading did: how many requests were repeated, how many were not since eight messages waited, how many were given up.
#[derive(Clone, Copy, PartialEq, Eq, Debug)]
pub struct Expired {
    pub repeated: u8,
    pub skipped: u8,
    pub given_up: u8,
}

// The tally since switch-on; the requests still pending at switch off are cut off.
#[derive(Clone, Copy, PartialEq, Eq, Debug)]
pub struct ClosedTally {
    pub since_on: Tally,
    pub cut_off: u32,
}

// A message that the network took: its length, and its octets with zeros behind them; no octets where none was taken.
#[derive(Clone, Copy, PartialEq, Eq, Debug)]
pub struct TakenMessage {
    pub length: u8,
    pub octets: [u8; 128],
}

// The answer of any call.
#[derive(Clone, Copy, PartialEq, Debug)]
pub enum Answer {
    // Switched on, and so many bars were restored.
    SwitchedOn(u8),
    SwitchedOff(ClosedTally),
    // A request was let out with this PTI, or stopped by a question.
    LetOut(u8),
    Stopped(Question),
    TakenIn(TakenIn),
    NotTakenIn(TakeInRefusal),
    Read(Expired),
    NetworkChanged,
    Taken(TakenMessage),
    // The timers that were looked at; nothing was done.
    Looked(TimersOn),
    // The present power state has no such call; nothing was done.
    NotAvailable,
}
