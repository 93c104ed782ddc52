// A whole life: an uplink and a keeper are commissioned, and a script is performed.
ghost use Rattle.std.specs.Prelude.{◌≡◌, ◌≤◌, map, length, MatchResult};
ghost use Rattle.life.specs.Lives.{goes_on, filled, Performed, Refused};
ghost use Rattle.life.specs.Said.{said, power_view};

use crate::call::Call;
use crate::perform::perform;
use crate::power::Power;
use handset::off::commission;
use keeper::Keeper;
use rules::answer::Answer;
use uplink::queue::Uplink;

// There are fewer answers than calls: uplink and keeper, as they were.
pub struct TooFewAnswers<U, K> {
    pub uplink: U,
    pub keeper: K,
}

// Performs the calls of a script in their order.
fn perform_all<U: Uplink, K: Keeper>(
    power: Power<U, K>,
    script: &[Call<'_>],
    answers: &mut [Answer],
) -> Power<U, K>
    requires { length script.now ≤ length answers.old }
    ensures answers { answers.new ≡ filled (goes_on (power_view U.Uplink.waiting K.Keeper.records power) (map said script.now)).replies (length script.now) answers.old }
    ensures handset { power_view U.Uplink.waiting K.Keeper.records result ≡ (goes_on (power_view U.Uplink.waiting K.Keeper.records power) (map said script.now)).handset }
{
    let mut power = power;
    for (i, call) in script.iter().enumerate() {
        let (next, answer) = perform(power, *call);
        power = next;
        answers[i] = answer;
    }
    power
}

// Commissions a handset over an uplink and a keeper, and performs a script: any calls in any order, each granted or refused. Answer i is that of
// call i; a call that the present power state does not have is answered as not available, and nothing is done. Where there are fewer answers
// than calls, nothing is done at all. The law of every life holds at each moment.
pub fn live<U: Uplink, K: Keeper>(
    uplink: U,
    keeper: K,
    script: &[Call<'_>],
    answers: &mut [Answer],
) -> Result<Power<U, K>, TooFewAnswers<U, K>>
    ensures { MatchResult result (λ p. Performed (map said script.now) (U.Uplink.waiting uplink) (K.Keeper.records keeper) answers.old answers.new (power_view U.Uplink.waiting K.Keeper.records p)) (λ e. Refused (map said script.now) uplink e.uplink keeper e.keeper answers.old answers.new) }
{
    if answers.len() < script.len() {
        return Err(TooFewAnswers { uplink, keeper });
    }
    let start = Power::Off(commission(uplink, keeper));
    Ok(perform_all(start, script, answers))
}
