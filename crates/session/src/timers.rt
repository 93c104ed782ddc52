// What a message that took effect does to the back-off timers on the keys of its session.
ghost use Rattle.std.specs.Prelude.{◌≡◌};
ghost use Rattle.session.specs.Timers.{kind_number, kind_of, mark, returned_mark, message_rule, timer_rule};

use backoff::octet::{TimerValue, read};
use dl_nas::message::{Content, Received};
use ul_nas::message::RequestType;

// The three back-off timers with their numbers: on the name; on network, slice and name; on network and slice.
#[derive(Clone, Copy, PartialEq, Eq, Debug)]
pub enum TimerKind {
    T3396 = 1,
    T3584 = 2,
    T3585 = 3,
}

impl TimerKind {
    pub fn number(self) -> u8
        ensures { result ≡ kind_number self }
    {
        self as u8
    }
}

// Nothing; the timer of one kind is set to a value; or the timers of all three kinds are lifted.
#[derive(Clone, Copy, PartialEq, Eq, Debug)]
pub enum TimerRule {
    NoMark,
    Mark(TimerKind, TimerValue),
    LiftAll,
}

// The timer that a cause marks; the cause of congestion differs inside and outside.
fn kind_of(congestion: u8, cause: u8) -> Option<TimerKind>
    ensures { result ≡ kind_of congestion cause }
{
    if cause == congestion {
        return Some(TimerKind::T3396);
    }
    match cause {
        0x43 => Some(TimerKind::T3584),
        0x45 => Some(TimerKind::T3585),
        _ => None,
    }
}

// The mark of a kind and a timer octet, where both are there.
fn mark(kind: Option<TimerKind>, timer: Option<u8>) -> TimerRule
    ensures { result ≡ mark kind timer }
{
    match (kind, timer) {
        (Some(kind), Some(octet)) => TimerRule::Mark(kind, read(octet)),
        _ => TimerRule::NoMark,
    }
}

// The mark of a request that came back with a 5GMM cause.
fn returned_mark(mm_cause: Option<u8>, timer: Option<u8>) -> TimerRule
    ensures { result ≡ returned_mark mm_cause timer }
{
    match mm_cause {
        Some(cause) => mark(kind_of(0x16, cause), timer),
        None => TimerRule::NoMark,
    }
}

// What a message says of the timers.
fn message_rule(message: &Received) -> TimerRule
    ensures { result ≡ message_rule message.now.content message.now.mm_cause message.now.outer_timer }
{
    match message.content {
        Content::EstablishmentReject { cause, timer }
        | Content::ModificationReject { cause, timer } => mark(kind_of(0x1A, cause), timer),
        Content::ReleaseCommand { cause: 0x27, .. } => TimerRule::LiftAll,
        Content::ReleaseCommand { cause, timer } => mark(kind_of(0x1A, cause), timer),
        Content::ModificationCommand { .. } => TimerRule::LiftAll,
        Content::EstablishmentRequest | Content::ModificationRequest => returned_mark(
            message.mm_cause,
            message.outer_timer,
        ),
        Content::EstablishmentAccept { .. }
        | Content::ReleaseReject { .. }
        | Content::Status { .. }
        | Content::ReleaseRequest => TimerRule::NoMark,
    }
}

// What a message does to the timers of a session: only one that took effect, and not on an emergency session.
pub fn timer_rule(request_type: RequestType, message: &Received, took_effect: bool) -> TimerRule
    ensures { result ≡ timer_rule request_type message.now took_effect }
{
    if took_effect && !request_type.is_emergency() {
        message_rule(message)
    } else {
        TimerRule::NoMark
    }
}
