// One call of a script, by the power state of the handset.
ghost use Rattle.std.specs.Prelude.{◌≡◌, false, length, if◌then◌else◌, Some, None, nat_eq};
ghost use Rattle.std.specs.Option.{option_map};
ghost use Rattle.life.specs.Said.{said, on_view, off_view, power_view, switches_off};
ghost use Rattle.rules.specs.Calls.{switch_on, time_reading, change_network, look, performed, place_of, request_told, taking_told, taken_message};
ghost use Rattle.uplink.specs.Waiting.{after_take};

use crate::call::Call;
use crate::power::Power;
use handset::off::{SwitchedOff, take_oldest};
use handset::switched_on::SwitchedOn;
use keeper::Keeper;
use keys::card::Card;
use keys::name::Name;
use keys::network::Network;
use keys::slice::Slice;
use requests::question::Question;
use rules::answer::{Answer, TakeInRefusal, TakenIn, TakenMessage};
use uplink::queue::{LONGEST_MESSAGE, Uplink};

// The answer of a request.
fn request_told(res: Result<u8, Question>) -> Answer
    ensures { result ≡ request_told res }
{
    match res {
        Ok(pti) => Answer::LetOut(pti),
        Err(question) => Answer::Stopped(question),
    }
}

// The answer of taking in a message.
fn taking_told(res: Result<TakenIn, TakeInRefusal>) -> Answer
    ensures { result ≡ taking_told res }
{
    match res {
        Ok(taken) => Answer::TakenIn(taken),
        Err(refusal) => Answer::NotTakenIn(refusal),
    }
}

// The network takes the oldest message into a place of some octets.
fn take_message<U: Uplink>(uplink: &mut U, room: u32) -> TakenMessage
    ensures answer { result ≡ taken_message (U.Uplink.waiting uplink.old) room }
    ensures queue { U.Uplink.waiting uplink.new ≡ after_take (U.Uplink.waiting uplink.old) (place_of room) }
{
    let mut octets = [0; LONGEST_MESSAGE];
    let place = (room as usize).min(LONGEST_MESSAGE);
    let length = take_oldest(uplink, &mut octets[0..place]) as u8;
    TakenMessage { length, octets }
}

// Exactly so many octets.
fn exactly<const N: usize>(octets: &[u8]) -> Option<[u8; N]>
    ensures { result ≡ (if nat_eq (length octets.now) N then Some octets.now else None) }
{
    octets.try_into().ok()
}

// Switches on, where card and network have the octets that they should.
fn switch_on<U: Uplink, K: Keeper>(
    handset: SwitchedOff<U, K>,
    card: &[u8],
    network: &[u8],
    reading: u32,
    off: Option<u32>,
) -> (Power<U, K>, Answer)
    ensures answer { result.1 ≡ (performed (switch_on card.now network.now reading off) (off_view U.Uplink.waiting K.Keeper.records handset)).answer }
    ensures after { power_view U.Uplink.waiting K.Keeper.records result.0 ≡ (performed (switch_on card.now network.now reading off) (off_view U.Uplink.waiting K.Keeper.records handset)).after }
{
    let (Some(card), Some(network)) = (exactly::<8>(card), exactly::<3>(network)) else {
        return (Power::Off(handset), Answer::NotAvailable);
    };
    let (on, restored) = handset.switch_on(Card::new(card), Network::new(network), reading, off);
    (Power::On(on), Answer::SwitchedOn(restored))
}

// A call of a switched-off handset.
fn perform_off<U: Uplink, K: Keeper>(
    handset: SwitchedOff<U, K>,
    call: Call<'_>,
) -> (Power<U, K>, Answer)
    ensures answer { result.1 ≡ (performed (said call.entry) (off_view U.Uplink.waiting K.Keeper.records handset)).answer }
    ensures after { power_view U.Uplink.waiting K.Keeper.records result.0 ≡ (performed (said call.entry) (off_view U.Uplink.waiting K.Keeper.records handset)).after }
{
    let mut handset = handset;
    match call {
        Call::SwitchOn(card, network, reading, off) => switch_on(
            handset, card, network, reading, off,
        ),
        Call::NetworkTake(room) => {
            let taken = take_message(&mut handset.uplink, room);
            (Power::Off(handset), Answer::Taken(taken))
        }
        Call::SwitchOff
        | Call::Establish(_, _, _, _)
        | Call::Modify(_)
        | Call::Release(_)
        | Call::TakeIn(_)
        | Call::TimeReading(_)
        | Call::ChangeNetwork(_)
        | Call::Look(_, _) => (Power::Off(handset), Answer::NotAvailable),
    }
}

// Changes the network, where it has three octets.
fn change_network<U: Uplink, K: Keeper>(handset: &mut SwitchedOn<U, K>, network: &[u8]) -> Answer
    ensures answer { result ≡ (performed (change_network network.now) (on_view U.Uplink.waiting K.Keeper.records handset.old)).answer }
    ensures after { on_view U.Uplink.waiting K.Keeper.records handset.new ≡ (performed (change_network network.now) (on_view U.Uplink.waiting K.Keeper.records handset.old)).after }
{
    match exactly::<3>(network) {
        Some(network) => {
            handset.change_network(Network::new(network));
            Answer::NetworkChanged
        }
        None => Answer::NotAvailable,
    }
}

// A time reading.
fn read_clock<U: Uplink, K: Keeper>(handset: &mut SwitchedOn<U, K>, reading: u32) -> Answer
    ensures answer { result ≡ (performed (time_reading reading) (on_view U.Uplink.waiting K.Keeper.records handset.old)).answer }
    ensures after { on_view U.Uplink.waiting K.Keeper.records handset.new ≡ (performed (time_reading reading) (on_view U.Uplink.waiting K.Keeper.records handset.old)).after }
{
    Answer::Read(handset.time_reading(reading))
}

// Looks at the timers on the keys of a slice and a name, where they are lawful.
fn look<U: Uplink, K: Keeper>(
    handset: &SwitchedOn<U, K>,
    slice: Option<&[u8]>,
    name: Option<&[u8]>,
) -> Answer
    ensures { result ≡ (performed (look (option_map (λ x. x.now) slice.entry) (option_map (λ x. x.now) name.entry)) (on_view U.Uplink.waiting K.Keeper.records handset.now)).answer }
{
    let Ok(slice) = Slice::new(slice) else {
        return Answer::NotAvailable;
    };
    let Ok(name) = Name::new(name) else {
        return Answer::NotAvailable;
    };
    Answer::Looked(handset.timers(slice, name))
}

// A call that leaves a handset switched on.
fn answer_on<U: Uplink, K: Keeper>(handset: &mut SwitchedOn<U, K>, call: Call<'_>) -> Answer
    requires { switches_off (said call) ≡ false }
    ensures answer { result ≡ (performed (said call.entry) (on_view U.Uplink.waiting K.Keeper.records handset.old)).answer }
    ensures after { on_view U.Uplink.waiting K.Keeper.records handset.new ≡ (performed (said call.entry) (on_view U.Uplink.waiting K.Keeper.records handset.old)).after }
{
    match call {
        Call::SwitchOn(_, _, _, _) | Call::SwitchOff => Answer::NotAvailable,
        Call::Establish(identity, request_type, slice, name) => {
            let asked = handset.establish(identity, request_type, slice, name);
            request_told(asked)
        }
        Call::Modify(identity) => request_told(handset.modify(identity)),
        Call::Release(identity) => request_told(handset.release(identity)),
        Call::TakeIn(octets) => taking_told(handset.take_in(octets)),
        Call::TimeReading(reading) => read_clock(handset, reading),
        Call::ChangeNetwork(network) => change_network(handset, network),
        Call::NetworkTake(room) => Answer::Taken(take_message(&mut handset.uplink, room)),
        Call::Look(slice, name) => look(handset, slice, name),
    }
}

// A call of a switched-on handset.
fn perform_on<U: Uplink, K: Keeper>(
    handset: SwitchedOn<U, K>,
    call: Call<'_>,
) -> (Power<U, K>, Answer)
    ensures answer { result.1 ≡ (performed (said call.entry) (on_view U.Uplink.waiting K.Keeper.records handset)).answer }
    ensures after { power_view U.Uplink.waiting K.Keeper.records result.0 ≡ (performed (said call.entry) (on_view U.Uplink.waiting K.Keeper.records handset)).after }
{
    if let Call::SwitchOff = call {
        let (off, tally) = handset.switch_off();
        return (Power::Off(off), Answer::SwitchedOff(tally));
    }
    let mut handset = handset;
    let answer = answer_on(&mut handset, call);
    (Power::On(handset), answer)
}

// Performs one call. What the present power state does not have is not available, and nothing is done.
pub fn perform<U: Uplink, K: Keeper>(power: Power<U, K>, call: Call<'_>) -> (Power<U, K>, Answer)
    ensures answer { result.1 ≡ (performed (said call.entry) (power_view U.Uplink.waiting K.Keeper.records power)).answer }
    ensures after { power_view U.Uplink.waiting K.Keeper.records result.0 ≡ (performed (said call.entry) (power_view U.Uplink.waiting K.Keeper.records power)).after }
{
    match power {
        Power::On(handset) => perform_on(handset, call),
        Power::Off(handset) => perform_off(handset, call),
    }
}
