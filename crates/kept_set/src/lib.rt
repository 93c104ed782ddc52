// The kept set of bars: what a switched-off handset keeps of its running timers, and what is restored from it.
#![tactic(auto)]

pub mod laws;
pub mod load;
pub mod store;

use keeper::RECORDS;

// The number of the trailer, the last record: it points back to the records of the kept bars.
pub const TRAILER: u8 = RECORDS as u8 - 1;
