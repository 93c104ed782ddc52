// Tables of sessions of which it is known what they tell.
#![tactic(auto)]

#[cfg(test)]
mod tests {
    use dl_nas::message::{Content, Received};
    use keys::key::{NameKey, SliceKey};
    use keys::name::Name;
    use keys::network::Network;
    use keys::parts::KeyParts;
    use keys::slice::Slice;
    use session::outcome::Expiry;
    use sessions::live::LiveKeys;
    use sessions::table::Sessions;
    use std::test::Fail;
    use ul_nas::message::RequestType;

    // An establishment request leaves, for a name of one octet.
    fn request(
        sessions: &mut Sessions,
        identity: u8,
        request_type: RequestType,
        name: u8,
        pti: u8,
    ) -> Result<(), Fail> {
        let name = Name::new(Some(&[name]))?;
        let parts = KeyParts {
            network: Network::new([0x02, 0xF8, 0x39]),
            slice: Slice::absent(),
            name,
        };
        sessions.establish(identity, request_type, parts, pti);
        Ok(())
    }

    fn accepted(identity: u8, pti: u8) -> Received {
        Received {
            identity,
            pti,
            content: Content::EstablishmentAccept { timer: None },
            mm_cause: None,
            outer_timer: None,
        }
    }

    // PTIs go from 1 to 254 and round, and those that wait are passed over.
    #[test]
    fn next_pti(rt: HostRuntime) -> Result<(), Fail> {
        let mut sessions = Sessions::new();
        for (last, next) in [(0, 1), (1, 2), (252, 253), (253, 254), (254, 1), (255, 1)] {
            assert_eq!(rt; sessions.next_pti(last), next, "none waits");
        }
        for (identity, pti) in [(1, 254), (15, 1), (7, 3), (8, 4)] {
            request(&mut sessions, identity, RequestType::Initial, identity, pti)?;
            assert!(rt; sessions.is_waiting(pti), "waiting");
        }
        for (last, next) in [
            (0, 2),
            (1, 2),
            (2, 5),
            (3, 5),
            (252, 253),
            (253, 2),
            (254, 2),
        ] {
            assert_eq!(rt; sessions.next_pti(last), next, "four wait");
        }
        assert!(rt; !sessions.is_waiting(2));
        assert_eq!(rt; sessions.pending(), 4);
        sessions.take_in(15, &accepted(15, 1));
        assert_eq!(rt; sessions.pending(), 3);
        assert_eq!(rt; sessions.next_pti(253), 1);
        Ok(())
    }

    // Fifteen requests wait at once; outside 1 to 15 there is no session.
    #[test]
    fn fifteen_pending(rt: HostRuntime) -> Result<(), Fail> {
        let mut sessions = Sessions::new();
        let mut last = 250;
        for identity in 1..16u8 {
            last = sessions.next_pti(last);
            request(
                &mut sessions,
                identity,
                RequestType::Initial,
                identity,
                last,
            )?;
            assert_eq!(rt; sessions.pending(), identity as usize);
        }
        assert_eq!(rt; last, 11);
        for (before, next) in [(250, 12), (254, 12), (11, 12), (12, 13), (249, 250)] {
            assert_eq!(rt; sessions.next_pti(before), next);
        }
        for identity in [0, 16, 255] {
            assert!(rt; sessions.session(identity).is_none());
            assert!(rt; sessions.take_in(identity, &accepted(identity, 1)).is_none());
            assert_eq!(rt; sessions.count(identity, 16), Expiry::Nothing);
            sessions.modify(identity, 99);
            sessions.release(identity, 99);
            assert!(rt; !sessions.is_waiting(99));
        }
        for identity in [1, 15] {
            assert_eq!(rt; sessions.count(identity, 15), Expiry::Nothing);
            assert_eq!(rt; sessions.count(identity, 1), Expiry::Repeat);
        }
        assert_eq!(rt; sessions.count(14, 1), Expiry::Nothing);
        sessions.make_inactive();
        assert_eq!(rt; sessions.pending(), 0);
        Ok(())
    }

    // The names of some keys in order, each of one octet below 16, as the digits of a number.
    fn names(keys: &LiveKeys<NameKey>) -> u32 {
        let mut digits = 0u32;
        for key in keys.as_slice() {
            for octet in key.name.octets() {
                digits = digits.wrapping_mul(16).wrapping_add(u32::from(*octet));
            }
        }
        digits
    }

    // Sessions that are INACTIVE or emergency claim no keys.
    #[test]
    fn live_keys(rt: HostRuntime) -> Result<(), Fail> {
        let mut sessions = Sessions::new();
        assert_eq!(rt; names(&sessions.live_keys::<NameKey>()), 0x0);
        request(&mut sessions, 15, RequestType::Existing, 5, 1)?;
        request(&mut sessions, 3, RequestType::InitialEmergency, 6, 2)?;
        request(&mut sessions, 4, RequestType::ExistingEmergency, 7, 3)?;
        request(&mut sessions, 1, RequestType::Initial, 8, 4)?;
        assert_eq!(rt; names(&sessions.live_keys::<NameKey>()), 0x85);
        sessions.take_in(15, &accepted(15, 1));
        assert_eq!(rt; names(&sessions.live_keys::<NameKey>()), 0x85);
        assert_eq!(rt; sessions.live_keys::<SliceKey>().as_slice().len(), 2);
        for _ in 0..5u8 {
            sessions.count(1, 16);
        }
        assert_eq!(rt; names(&sessions.live_keys::<NameKey>()), 0x5);
        let name = Name::new(Some(&[9]))?;
        let more = sessions.live_keys::<NameKey>().with(NameKey { name });
        assert_eq!(rt; names(&more), 0x59);
        Ok(())
    }
}
