// Back-off timers: the octet by which the network sets one, and the timer itself.
#![tactic(auto)]

pub mod laws;
pub mod octet;
pub mod timer;
pub mod words;

#[cfg(test)]
mod tests {
    use crate::octet::{ShowRefusal, TimerValue, read, show};
    use crate::timer::BackOffTimer;
    use crate::words::in_words;
    use std::test::Fail;

    // Received octets, and what they say.
    #[test]
    fn octets_are_read(rt: HostRuntime) {
        let table = [
            (0xA5, TimerValue::Seconds(300)),
            (0xA0, TimerValue::Zero),
            (0x00, TimerValue::Zero),
            (0xE0, TimerValue::Deactivated),
            (0xFF, TimerValue::Deactivated),
            (0x22, TimerValue::Seconds(7_200)),
            (0xDF, TimerValue::Seconds(35_712_000)),
        ];
        for (octet, value) in table {
            assert_eq!(rt; read(octet), value, "octet");
        }
    }

    // Seconds, and the octets that show them: the first and the last of each unit.
    #[test]
    fn seconds_are_shown(rt: HostRuntime) {
        let table = [
            (1, Ok(0x61)),
            (62, Ok(0x7F)),
            (63, Ok(0x83)),
            (930, Ok(0x9F)),
            (931, Ok(0xB0)),
            (1_861, Ok(0x04)),
            (18_601, Ok(0x26)),
            (111_601, Ok(0x44)),
            (1_116_001, Ok(0xC1)),
            (35_712_000, Ok(0xDF)),
            (35_712_001, Err(ShowRefusal::TooLong)),
            (0, Err(ShowRefusal::NoSeconds)),
        ];
        for (seconds, octet) in table {
            assert_eq!(rt; show(seconds), octet, "seconds");
        }
    }

    // The three words: stopped permits, running and deactivated forbid.
    #[test]
    fn only_a_stopped_timer_permits(rt: HostRuntime) {
        assert!(rt; BackOffTimer::set_to(read(0xA0)).permits());
        assert!(rt; !BackOffTimer::set_to(read(0xE0)).permits());
        let running = BackOffTimer::set_to(read(0xA5));
        assert_eq!(rt; running.count(299), BackOffTimer::Running(1));
        assert_eq!(rt; running.count(299).count(1), BackOffTimer::Stopped);
        assert_eq!(rt;
            BackOffTimer::Deactivated.count(4_294_967_295),
            BackOffTimer::Deactivated
        );
    }

    // An octet in words.
    #[test]
    fn octets_in_words(rt: HostRuntime) -> Result<(), Fail> {
        let shown = format!(in rt.alloc(); "{}, {}", in_words(0x83), in_words(0xE0))?;
        assert!(rt; shown.as_str() == "3 x 30 s, deactivated");
        Ok(())
    }
}
