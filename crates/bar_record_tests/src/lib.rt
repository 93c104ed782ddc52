// Records of bars: the layout octet by octet, and damaged records.
#![tactic(auto)]

#[cfg(test)]
mod tests {
    use bar_record::kept::{KeptBar, KeptKey};
    use bar_record::read::read;
    use bar_record::write::{RecordRefusal, write};
    use keys::key::{NameKey, SliceKey, SliceNameKey};
    use keys::name::Name;
    use keys::network::Network;
    use keys::slice::Slice;
    use std::process::Abort;
    use std::test::Fail;

    // A bar of each kind, with 300 seconds left.
    fn bar(kind: u8) -> Result<KeptBar, Fail> {
        let network = Network::new([0x00, 0xF1, 0x10]);
        let slice = Slice::new(Some(b"\x01\x0A"))?;
        let name = Name::new(Some(b"\x03ims"))?;
        let key = match kind {
            1 => KeptKey::T3396(NameKey { name }),
            2 => KeptKey::T3584(SliceNameKey {
                network,
                slice,
                name,
            }),
            _ => KeptKey::T3585(SliceKey { network, slice }),
        };
        Ok(KeptBar { key, seconds: 300 })
    }

    #[test]
    fn record_has_the_layout(rt: HostRuntime) -> Result<(), Fail> {
        for kind in 1..4 {
            let mut record = [0xAAu8; 128];
            assert_eq!(rt; write(&bar(kind)?, &mut record), Ok(()));
            let mut expected = [0u8; 128];
            expected[0] = kind;
            if kind != 1 {
                expected[1..4].copy_from_slice(b"\x00\xF1\x10");
                expected[4..7].copy_from_slice(b"\x02\x01\x0A");
            }
            if kind != 3 {
                expected[13..18].copy_from_slice(b"\x04\x03ims");
            }
            expected[116] = 1;
            expected[117] = 44;
            assert!(rt; record == expected, "layout");
        }
        Ok(())
    }

    // Whether a record is of no bar, or of one that writes to exactly these octets.
    fn is_exact(record: &[u8; 128]) -> bool {
        let Some(bar) = read(record) else {
            return true;
        };
        let mut again = [0u8; 128];
        write(&bar, &mut again) == Ok(()) && again == *record
    }

    #[test]
    fn damaged_records_are_told(rt: HostRuntime) -> Result<(), Fail> {
        let mut whole = [0u8; 128];
        assert_eq!(rt; write(&bar(2)?, &mut whole), Ok(()));
        assert_eq!(rt; read(&whole).map(|kept| kept.seconds), Some(300));
        for place in 0..128 {
            let mut damaged = whole;
            damaged[place] ^= 1;
            assert!(rt; is_exact(&damaged), "damaged");
        }
        let mut behind = whole;
        behind[127] = 1;
        assert!(rt; read(&behind).is_none());
        assert!(rt; read(&whole[0..127]).is_none());
        Ok(())
    }

    // Whether seconds that cannot be kept are refused, with nothing written.
    fn refuses(rt: &impl Abort, seconds: u32) -> Result<(), Fail> {
        let mut record = [0xAAu8; 128];
        let mut bar = bar(1)?;
        bar.seconds = seconds;
        assert_eq!(rt; write(&bar, &mut record), Err(RecordRefusal::Seconds));
        assert!(rt; record == [0xAA; 128]);
        Ok(())
    }

    #[test]
    fn seconds_and_lengths_are_refused(rt: HostRuntime) -> Result<(), Fail> {
        refuses(&rt, 0)?;
        refuses(&rt, 35_712_001)?;
        let mut bar = bar(1)?;
        bar.seconds = 35_712_000;
        let mut long = [0xAAu8; 129];
        assert_eq!(rt; write(&bar, &mut long), Err(RecordRefusal::Length));
        assert!(rt; long == [0xAA; 129]);
        let mut record = [0u8; 128];
        assert_eq!(rt; write(&bar, &mut record), Ok(()));
        assert_eq!(rt; read(&record).map(|kept| kept.seconds), Some(35_712_000));
        Ok(())
    }
}
