// What the bench answers about timer octets.
ghost use Rattle.std.specs.Prelude.{◌≡◌, Some};
ghost use Rattle.backoff.specs.Octet.{reading, shown};
ghost use Rattle.bench.specs.Answer.{does, shows, words_of};

use backoff::octet::{TimerValue, read, show};
use std::fmt;

// An answer about a timer octet.
#[derive(Clone, Copy)]
pub enum Answer {
    Starts(u32),
    Stops,
    Deactivates,
    Shown(u8),
    NotUnderstood,
}

// What a received timer octet does.
pub fn octet_answer(octet: u8) -> Answer
    ensures { result ≡ does (reading octet) }
{
    match read(octet) {
        TimerValue::Zero => Answer::Stops,
        TimerValue::Seconds(seconds) => Answer::Starts(seconds),
        TimerValue::Deactivated => Answer::Deactivates,
    }
}

// The octet that shows some seconds, if one does.
pub fn seconds_answer(seconds: u32) -> Answer
    ensures { result ≡ shows (shown seconds) }
{
    match show(seconds) {
        Ok(octet) => Answer::Shown(octet),
        Err(_) => Answer::NotUnderstood,
    }
}

impl fmt::Display for Answer {
    ghost output = { λ a. Some (words_of a) };

    #[tactic(auto, using(std::proofs::lemmas::Fmt::hex_byte))]
    fn fmt<W: fmt::Write>(&self, f: &mut fmt::Formatter<W>) -> fmt::Result {
        match *self {
            Answer::Starts(seconds) => write!(f, "starts the timer at {seconds} s"),
            Answer::Stops => write!(f, "stops the timer"),
            Answer::Deactivates => write!(f, "deactivates the timer"),
            Answer::Shown(octet) => write!(f, "shown {octet:02X}"),
            Answer::NotUnderstood => write!(f, "not understood"),
        }
    }
}
