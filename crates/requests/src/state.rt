// What a switched-on handset remembers.
use keys::card::Card;
use keys::network::Network;
use sessions::table::Sessions;
use timers::timers::Timers;

// How many requests were let out since switch-on, and how they ended.
#[derive(Clone, Copy, PartialEq, Eq, Default, Debug)]
pub struct Tally {
    pub let_out: u32,
    pub accepted: u32,
    pub rejected: u32,
    pub returned: u32,
    pub overtaken: u32,
    pub given_up: u32,
}

// The fifteen sessions, the timers, the card, the network, the latest reading, the PTI given last (0 before the first), the tally.
#[derive(Drop)]
pub struct State {
    pub sessions: Sessions,
    pub timers: Timers,
    pub card: Card,
    pub network: Network,
    pub reading: u32,
    pub last_pti: u8,
    pub tally: Tally,
}
