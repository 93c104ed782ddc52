// What holds over every uplink and every keeper, proved from their meanings alone.
#![tactic(auto)]

ghost use Rattle.std.specs.Prelude.{◌≡◌, length};
ghost use Rattle.devices.specs.Filing.{filed, queue_after, records_after};

use keeper::{Keeper, RECORD_LENGTH, RECORDS};
use uplink::queue::Uplink;

// Moves the oldest waiting message into a record, with zeros behind it, and answers whether it did: a message waits
// and the record's number is lawful. A refusal leaves both devices alone.
pub fn file_oldest<U: Uplink, K: Keeper>(uplink: &mut U, keeper: &mut K, number: u8) -> bool
    ensures answer { result ≡ filed (U.Uplink.waiting uplink.old) number }
    ensures queue { U.Uplink.waiting uplink.new ≡ queue_after (U.Uplink.waiting uplink.old) number }
    ensures records { K.Keeper.records keeper.new ≡ records_after (U.Uplink.waiting uplink.old) (K.Keeper.records keeper.old) number }
{
    let mut record = [0; RECORD_LENGTH];
    usize::from(number) < RECORDS
        && uplink.take(&mut record).is_ok()
        && keeper.write(number, &record).is_ok()
}

#[cfg(test)]
mod tests {
    use crate::file_oldest;
    use keeper::Keeper;
    use keeper::flat_image::FlatImage;
    use std::process::Abort;
    use uplink::alike::{UplinkCall, answer_alike};
    use uplink::line::Line;
    use uplink::queue::Uplink;
    use uplink::refusal::{SendRefusal, TakeRefusal};
    use uplink::slots::Slots;

    // Sends, takes and refused calls of one round, on both makes. A round leaves one message more waiting, up to eight.
    fn round_alike(rt: &impl Abort, one: &mut Slots, other: &mut Line, round: usize) {
        let octets = [(round % 256) as u8; 129];
        let n = 1 + round % 128 * 37 % 128;
        let calls = [
            UplinkCall::Send(&octets[0..n]),
            UplinkCall::Send(&octets[0..0]),
            UplinkCall::Send(&octets[0..129]),
            UplinkCall::Send(&octets[0..1 + n / 2]),
            UplinkCall::Count,
            UplinkCall::Take(n % 7),
            UplinkCall::Take(128),
        ];
        assert!(rt; answer_alike(one, other, &calls), "round");
    }

    #[test]
    fn makes_of_uplinks_are_alike(rt: HostRuntime) {
        let mut one = Slots::new();
        let mut other = Line::new();
        let octets = [0u8; 1];
        let drain = [
            UplinkCall::Take(128),
            UplinkCall::Take(128),
            UplinkCall::Take(127),
            UplinkCall::Send(&octets),
        ];
        for round in 0..60 {
            round_alike(&rt, &mut one, &mut other, round);
            if round % 11 == 10 {
                assert!(rt; answer_alike(&mut one, &mut other, &drain), "drain");
            }
        }
    }

    // Whether a place has a message at its front, and the octet behind it as it was.
    fn begins_with(place: &[u8], message: &[u8]) -> bool {
        place
            .strip_prefix(message)
            .is_some_and(|rest| rest.first() == Some(&0xAA))
    }

    // Takes the oldest message, which is expected to be this one, after a place that is one octet too short.
    fn takes<U: Uplink>(rt: &impl Abort, uplink: &mut U, make: &str, message: &[u8]) {
        let mut short = [0xAAu8; 127];
        if message.len() >= 1 && message.len() <= 128 {
            let refused = uplink.take(&mut short[0..message.len() - 1]);
            assert_eq!(rt; refused, Err(TakeRefusal::Short), "{make}");
        }
        assert!(rt; short == [0xAA; 127], "{make}");
        let mut place = [0xAAu8; 129];
        assert_eq!(rt; uplink.take(&mut place), Ok(message.len()), "{make}");
        assert!(rt; begins_with(&place, message), "{make}");
    }

    // The messages of the test: one of 16, 32, .. 128 octets each.
    fn message(i: usize) -> [u8; 128] {
        [(i % 256) as u8; 128]
    }

    // Fills an uplink, and takes all out again in their order.
    fn fills_and_empties<U: Uplink>(rt: &impl Abort, uplink: &mut U, make: &str) {
        for i in 1..9 {
            assert_eq!(rt; uplink.send(&message(i)[0..16 * i]), Ok(()), "{make}");
        }
        assert_eq!(rt; uplink.send(&[9]), Err(SendRefusal::Full), "{make}");
        assert_eq!(rt; uplink.send(&[]), Err(SendRefusal::Length), "{make}");
        for i in 1..9 {
            assert_eq!(rt; uplink.count(), 9 - i, "{make}");
            takes(rt, uplink, make, &message(i)[0..16 * i]);
        }
        let mut place = [0u8; 128];
        assert_eq!(rt; uplink.take(&mut place), Err(TakeRefusal::Empty), "{make}");
    }

    #[test]
    fn uplinks_keep_the_order(rt: HostRuntime) {
        let mut slots = Slots::new();
        let mut line = Line::new();
        for _ in 0..3 {
            fills_and_empties(&rt, &mut slots, "slots");
            fills_and_empties(&rt, &mut line, "line");
        }
    }

    #[test]
    fn oldest_message_is_filed(rt: HostRuntime) {
        let mut uplink = Line::new();
        let mut keeper = FlatImage::new();
        assert!(rt; !file_oldest(&mut uplink, &mut keeper, 3));
        assert_eq!(rt; uplink.send(b"\x7E\x00"), Ok(()));
        assert!(rt; !file_oldest(&mut uplink, &mut keeper, 97));
        assert!(rt; file_oldest(&mut uplink, &mut keeper, 3));
        let mut place = [1u8; 128];
        assert_eq!(rt; keeper.read(3, &mut place), Ok(()));
        assert!(rt; place[0] == 0x7E && place[1] == 0 && place[127] == 0);
        assert_eq!(rt; uplink.count(), 0);
    }
}
