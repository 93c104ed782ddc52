// What a message of the network does to a switched-on handset: its session, the timers and the tally.
#![tactic(auto)]

ghost use Rattle.std.specs.Prelude.{◌≡◌, ◌+◌, ◌≤◌, Ok};
ghost use Rattle.requests.specs.SoundViews.{sound_view};
ghost use Rattle.rules.specs.TakingIn.{passed_over, did, taken, after_taken, tally_with};
ghost use Rattle.session.specs.Session.{session_view};
ghost use Rattle.session.specs.Transitions.{outcome_of};

use dl_nas::message::Received;
use requests::sound::SoundState;
use requests::state::Tally;
use rules::answer::{TakeInRefusal, TakenIn};
use session::outcome::{Ended, Outcome};
use session::session::Session;
use session::timers::{TimerRule, timer_rule};
use uplink::queue::CAPACITY;

// The answer to a message that is passed over.
fn passed_over(identity: u8) -> TakenIn
    ensures { result ≡ passed_over identity }
{
    TakenIn {
        identity,
        ended: Ended::Nothing,
        rule: TimerRule::NoMark,
        reply: None,
    }
}

// What a message would do to a session; the session stays.
fn outcome_on(session: &Session, message: &Received) -> Outcome
    ensures { result ≡ outcome_of (session_view session.now) message.now }
{
    let mut after = *session;
    after.take_in(message)
}

// What a message that is taken in answers.
fn answer_on(session: &Session, message: &Received) -> TakenIn
    ensures { result ≡ did message.now (session_view session.now) (outcome_of (session_view session.now) message.now) }
{
    let outcome = outcome_on(session, message);
    TakenIn {
        identity: message.identity,
        ended: outcome.ended,
        rule: timer_rule(session.request_type, message, outcome.took_effect),
        reply: outcome.reply,
    }
}

// The tally with what ended.
fn tally_with(ended: Ended, tally: Tally) -> Tally
    requires { tally.accepted + tally.rejected + tally.returned + tally.overtaken ≤ 1000000000 }
    ensures { result ≡ tally_with ended tally }
{
    let mut after = tally;
    match ended {
        Ended::Accepted => after.accepted += 1,
        Ended::Rejected => after.rejected += 1,
        Ended::Returned => after.returned += 1,
        Ended::Overtaken => after.overtaken += 1,
        Ended::Nothing => {}
    }
    after
}

// Takes in a message that was read, while some messages wait: its session's state and the message decide together; then a
// reply that is due needs room (12). A refusal changes nothing.
pub fn take_in(
    state: &mut SoundState,
    message: &Received,
    waiting: usize,
) -> Result<TakenIn, TakeInRefusal>
    ensures answer { result ≡ taken (Ok message.now) (sound_view state.old) waiting }
    ensures state { sound_view state.new ≡ after_taken result (Ok message.now) (sound_view state.old) }
{
    let Some(session) = state.plain.sessions.session(message.identity) else {
        return Ok(passed_over(message.identity));
    };
    let answer = answer_on(&session, message);
    if answer.reply.is_some() && waiting >= CAPACITY {
        return Err(TakeInRefusal::Waiting);
    }
    state.plain.sessions.take_in(message.identity, message);
    state.plain.timers.apply(answer.rule, &session.parts);
    state.plain.tally = tally_with(answer.ended, state.plain.tally);
    Ok(answer)
}
