// Switching on and switching off. Each consumes the handset that it is called on.
ghost use Rattle.std.specs.Prelude.{◌≡◌, ◌≤◌};
ghost use Rattle.kept_set.specs.Loading.{standing_in};
ghost use Rattle.requests.specs.SoundViews.{sound_view};
ghost use Rattle.rules.specs.Power.{switched_on, restored_count, records_after_off, closed_tally};
ghost use Rattle.timers.specs.Timers.{timers_view};

use crate::off::SwitchedOff;
use crate::switched_on::SwitchedOn;
use keeper::Keeper;
use kept_set::load::restore;
use kept_set::store::store;
use keys::card::Card;
use keys::network::Network;
use requests::sound::SoundState;
use requests::state::{State, Tally};
use rules::answer::ClosedTally;
use sessions::table::Sessions;
use timers::timers::Timers;
use uplink::queue::Uplink;

// How many bars stand, at most 32 of each kind.
fn standing(timers: &Timers) -> u8
    ensures { result ≡ standing_in (timers_view timers.now) }
{
    timers.standing() as u8
}

// The tally of a handset that is switched off: the requests still pending are cut off.
fn closed_tally(state: &SoundState) -> ClosedTally
    ensures { result ≡ closed_tally (sound_view state.now) }
{
    ClosedTally {
        since_on: state.plain.tally,
        cut_off: state.plain.sessions.pending() as u32,
    }
}

impl<U: Uplink, K: Keeper> SwitchedOff<U, K> {
    // Switches the handset on, with a card, the network, the first reading, and the seconds that it was off, if they are known. Answers
    // the switched-on handset and how many bars were restored. Every session is INACTIVE.
    pub fn switch_on(
        self,
        card: Card,
        network: Network,
        reading: u32,
        off: Option<u32>,
    ) -> (SwitchedOn<U, K>, u8)
        ensures state { sound_view result.0.state ≡ switched_on card.octets network.octets reading off (K.Keeper.records self.keeper) }
        ensures answer { result.1 ≡ restored_count card.octets off (K.Keeper.records self.keeper) }
        ensures uplink { result.0.uplink ≡ self.uplink }
        ensures keeper { result.0.keeper ≡ self.keeper }
    {
        let SwitchedOff { uplink, keeper } = self;
        let timers = restore(&keeper, &card, off);
        let restored = standing(&timers);
        let state = SoundState {
            plain: State {
                sessions: Sessions::new(),
                timers,
                card,
                network,
                reading,
                last_pti: 0,
                tally: Tally::default(),
            },
        };
        (
            SwitchedOn {
                state,
                uplink,
                keeper,
            },
            restored,
        )
    }
}

impl<U: Uplink, K: Keeper> SwitchedOn<U, K> {
    // Switches the handset off. The running bars are kept, the deactivated ones lifted. Answers the switched-off handset and the tally since
    // switch-on.
    pub fn switch_off(self) -> (SwitchedOff<U, K>, ClosedTally)
        ensures answer { result.1 ≡ closed_tally (sound_view self.state) }
        ensures records { K.Keeper.records result.0.keeper ≡ records_after_off (sound_view self.state) (K.Keeper.records self.keeper) }
        ensures uplink { result.0.uplink ≡ self.uplink }
    {
        let SwitchedOn {
            state,
            uplink,
            keeper,
        } = self;
        let mut keeper = keeper;
        store(&mut keeper, &state.plain.card, &state.plain.timers);
        let tally = closed_tally(&state);
        (SwitchedOff { uplink, keeper }, tally)
    }
}
