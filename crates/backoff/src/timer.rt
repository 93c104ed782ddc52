// A back-off timer. A stopped one permits requests; a running one and a deactivated one forbid them.
ghost use Rattle.std.specs.Prelude.{◌≡◌, ℕ, ◌+◌, true};
ghost use Rattle.backoff.specs.Timer.{set_to, counted, permitting, lasting};

use crate::octet::TimerValue;

// The state of a back-off timer: stopped, running with its seconds left, or deactivated.
#[derive(Clone, Copy, PartialEq, Eq, Debug)]
pub enum BackOffTimer {
    Stopped,
    Running(u32),
    Deactivated,
}

impl BackOffTimer {
    // The timer as a received octet sets it.
    pub fn set_to(value: TimerValue) -> BackOffTimer
        ensures { result ≡ set_to value }
    {
        match value {
            TimerValue::Zero => BackOffTimer::Stopped,
            TimerValue::Seconds(seconds) => BackOffTimer::Running(seconds),
            TimerValue::Deactivated => BackOffTimer::Deactivated,
        }
    }

    // The timer after some seconds were counted: a running one with none left is stopped, and
    // the others do not count. Counting in two parts is counting their sum.
    pub fn count(self, seconds: u32) -> BackOffTimer
        ensures timer { result ≡ counted seconds self }
        ensures lasting { lasting result ≡ true }
        ensures parts { (more : ℕ) → counted more result ≡ counted (seconds + more) self }
    {
        match self {
            BackOffTimer::Running(left) if seconds < left => BackOffTimer::Running(left - seconds),
            BackOffTimer::Running(_) => BackOffTimer::Stopped,
            still => still,
        }
    }

    // Whether the timer lets a request leave: only a stopped one does.
    pub fn permits(self) -> bool
        ensures { result ≡ permitting self }
    {
        matches!(self, BackOffTimer::Stopped)
    }
}
