// A state in which all that holds between the calls of a switched-on handset does hold.
ghost use Rattle.std.specs.Prelude.{◌≡◌, ◌+◌, ◌≤◌, true};
ghost use Rattle.requests.specs.Sound.{all_lawful, claims_fit};
ghost use Rattle.sessions.specs.Laws.{all_differ};
ghost use Rattle.sessions.specs.Ptis.{waiting_ptis, pending};
ghost use Rattle.sessions.specs.Table.{sessions_view};
ghost use Rattle.timers.specs.Timers.{timers_view};

pub mod methods;

use crate::state::State;

// The PTIs of waiting requests differ; sessions have lawful parts; at most 32 keys of each kind are claimed; at most
// 1,000,000,000 requests were let out, and each has ended or waits.
#[derive(Drop)]
pub struct SoundState {
    pub plain: State,
    ghost differ: { all_differ (waiting_ptis (sessions_view plain.sessions)) ≡ true },
    ghost lawful: { all_lawful (sessions_view plain.sessions) ≡ true },
    ghost claims: { claims_fit (timers_view plain.timers) (sessions_view plain.sessions) ≡ true },
    ghost few: { plain.tally.let_out ≤ 1000000000 },
    ghost sums: { plain.tally.let_out ≡ plain.tally.accepted + plain.tally.rejected + plain.tally.returned + plain.tally.overtaken + plain.tally.given_up + pending (sessions_view plain.sessions) },
}
