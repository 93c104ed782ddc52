// Time readings: seconds are taken off every timer and every waiting request, identities rising.
#![tactic(auto)]

ghost use Rattle.std.specs.Prelude.{◌≡◌, ◌+◌, ◌-◌, ◌<◌, ◌≤◌, ◌++◌, length, take, if◌then◌else◌};
ghost use Rattle.readings.specs.Turns.{expired_so, tally_by, expired_on, turn_answer, turn_waiting, sum_of, all_expired, timers_counted};
ghost use Rattle.requests.specs.SoundViews.{sound_view};
ghost use Rattle.rules.specs.Reading.{expired, repeated_messages, reading_answer, after_reading, waiting_after_reading};
ghost use Rattle.sessions.specs.Acts.{expiry_of};
ghost use Rattle.sessions.specs.Table.{session_of};
ghost use Rattle.uplink.specs.Sizes.{capacity};

pub mod laws;

use requests::sound::SoundState;
use requests::state::Tally;
use rules::answer::Expired;
use session::outcome::Expiry;
use uplink::queue::Uplink;

// The tally after an expiry: a request that is given up is counted.
fn tally_by(expiry: Expiry, tally: Tally) -> Tally
    requires { tally.given_up ≤ 1000000000 }
    ensures { result ≡ tally_by expiry tally }
{
    let mut after = tally;
    if let Expiry::GiveUp = expiry {
        after.given_up += 1;
    }
    after
}

// Takes some seconds off the waiting request of an identity; one that is given up is counted.
fn expire(state: &mut SoundState, identity: u8, seconds: u32) -> Expiry
    ensures answer { result ≡ expiry_of seconds (session_of identity (sound_view state.old).sessions) }
    ensures state { sound_view state.new ≡ expired_on identity seconds (sound_view state.old) }
{
    let expiry = state.plain.sessions.count(identity, seconds);
    state.plain.tally = tally_by(expiry, state.plain.tally);
    expiry
}

// So many repeated, skipped, and given up.
fn told(repeated: u8, skipped: u8, given_up: u8) -> Expired
    ensures { result ≡ expired_so repeated skipped given_up }
{
    Expired {
        repeated,
        skipped,
        given_up,
    }
}

// One repeated, or skipped if it was not sent.
fn repeat_told(sent: bool) -> Expired
    ensures { result ≡ (if sent then expired_so 1 0 0 else expired_so 0 1 0) }
{
    if sent { told(1, 0, 0) } else { told(0, 1, 0) }
}

// The turn of one session: its request goes on, is repeated or skipped, or is given up.
fn serve<U: Uplink>(state: &mut SoundState, uplink: &mut U, identity: u8, seconds: u32) -> Expired
    ensures answer { result ≡ turn_answer (expiry_of seconds (session_of identity (sound_view state.old).sessions)) (length (U.Uplink.waiting uplink.old)) }
    ensures state { sound_view state.new ≡ expired_on identity seconds (sound_view state.old) }
    ensures queue { U.Uplink.waiting uplink.new ≡ turn_waiting (expiry_of seconds (session_of identity (sound_view state.old).sessions)) identity (session_of identity (sound_view state.old).sessions) (U.Uplink.waiting uplink.old) }
{
    match expire(state, identity, seconds) {
        Expiry::Nothing => told(0, 0, 0),
        Expiry::Repeat => repeat_told(state.send_pending(identity, uplink)),
        Expiry::GiveUp => told(0, 0, 1),
    }
}

// The sum of two answers.
fn sum_of(one: Expired, other: Expired) -> Expired
    requires repeated { one.repeated + other.repeated < 256 }
    requires skipped { one.skipped + other.skipped < 256 }
    requires given_up { one.given_up + other.given_up < 256 }
    ensures { result ≡ sum_of one other }
{
    Expired {
        repeated: one.repeated + other.repeated,
        skipped: one.skipped + other.skipped,
        given_up: one.given_up + other.given_up,
    }
}

// The turns of all sessions, identities rising.
fn serve_all<U: Uplink>(state: &mut SoundState, uplink: &mut U, seconds: u32) -> Expired
    ensures answer { result ≡ expired seconds (sound_view state.old).sessions (length (U.Uplink.waiting uplink.old)) }
    ensures state { sound_view state.new ≡ all_expired seconds (sound_view state.old) }
    ensures queue { U.Uplink.waiting uplink.new ≡ U.Uplink.waiting uplink.old ++ take (capacity - length (U.Uplink.waiting uplink.old)) (repeated_messages seconds 1 (sound_view state.old).sessions) }
{
    let mut answer = told(0, 0, 0);
    for place in 0..15u8 {
        let turn = serve(state, uplink, place + 1, seconds);
        answer = sum_of(answer, turn);
    }
    answer
}

// A time reading: the seconds by which it exceeds the reading before are taken off every running timer and every waiting
// request. A request that expires is repeated, or skipped if eight messages wait; the fifth time it is given up.
pub fn read_clock<U: Uplink>(state: &mut SoundState, uplink: &mut U, reading: u32) -> Expired
    ensures answer { result ≡ reading_answer reading (sound_view state.old) (U.Uplink.waiting uplink.old) }
    ensures state { sound_view state.new ≡ after_reading reading (sound_view state.old) }
    ensures queue { U.Uplink.waiting uplink.new ≡ waiting_after_reading reading (sound_view state.old) (U.Uplink.waiting uplink.old) }
{
    let seconds = reading.saturating_sub(state.plain.reading);
    count_timers(state, seconds, reading);
    serve_all(state, uplink, seconds)
}

// The seconds are taken off every timer, and the reading is kept.
fn count_timers(state: &mut SoundState, seconds: u32, reading: u32)
    ensures { sound_view state.new ≡ timers_counted seconds reading (sound_view state.old) }
{
    state.plain.timers.count(seconds);
    state.plain.reading = reading;
}
