// Sessions of which it is known what a message, time or a request makes of them.
#![tactic(auto)]

#[cfg(test)]
mod tests {
    use backoff::octet::TimerValue;
    use dl_nas::message::{Content, Received};
    use keys::name::Name;
    use keys::network::Network;
    use keys::parts::KeyParts;
    use keys::slice::Slice;
    use session::messages::{PendingRefusal, write_reply};
    use session::outcome::{Ended, Expiry, Outcome, Reply};
    use session::session::Session;
    use session::state::{State, Waiting};
    use session::timers::{TimerKind, TimerRule, timer_rule};
    use std::process::Abort;
    use std::test::Fail;
    use ul_nas::laws::{worked_reply, worked_request};
    use ul_nas::message::RequestType;
    use ul_nas::write::WriteRefusal;

    // A request with PTI 7.
    const SEVEN: Waiting = Waiting {
        pti: 7,
        left: 9,
        expiries: 2,
    };

    fn message(pti: u8, content: Content, mm_cause: Option<u8>) -> Received {
        Received {
            identity: 5,
            pti,
            content,
            mm_cause,
            outer_timer: None,
        }
    }

    // A session in a state takes in a message: the outcome, and the state afterwards.
    fn takes(
        rt: &impl Abort,
        before: State,
        message: Received,
        after: State,
        outcome: Outcome,
        note: &str,
    ) {
        let mut session = Session::unused();
        session.state = before;
        assert_eq!(rt; session.take_in(&message), outcome, "{note}");
        assert_eq!(rt; session.state, after, "{note}");
    }

    fn effect(ended: Ended, reply: Option<Reply>) -> Outcome {
        Outcome {
            ended,
            took_effect: true,
            reply,
        }
    }

    // A message is passed over.
    fn passes(rt: &impl Abort, before: State, message: Received, note: &str) {
        let passed = Outcome {
            ended: Ended::Nothing,
            took_effect: false,
            reply: None,
        };
        takes(rt, before, message, before, passed, note);
    }

    // An inactive session answers D6 to a message of the network, and passes it over with the 5GMM cause.
    fn answers_status(rt: &impl Abort, pti: u8, content: Content, note: &str) {
        let status = Outcome {
            ended: Ended::Nothing,
            took_effect: false,
            reply: Some(Reply::Status),
        };
        takes(
            rt,
            State::Inactive,
            message(pti, content, None),
            State::Inactive,
            status,
            note,
        );
        passes(rt, State::Inactive, message(pti, content, Some(0x16)), note);
    }

    const C2: Content = Content::EstablishmentAccept { timer: None };

    const C3: Content = Content::EstablishmentReject {
        cause: 0x1A,
        timer: None,
    };

    const CA: Content = Content::ModificationReject {
        cause: 0x1A,
        timer: None,
    };

    const CB: Content = Content::ModificationCommand { timer: None };

    const D2: Content = Content::ReleaseReject {
        cause: 0x1A,
        timer: None,
    };

    const D3: Content = Content::ReleaseCommand {
        cause: 0x1A,
        timer: None,
    };

    const D6: Content = Content::Status {
        cause: 0x2B,
        timer: None,
    };

    // The answers to a waiting request; with another PTI, with the 5GMM cause, or without a request they are none.
    #[test]
    fn answers(rt: HostRuntime) {
        let establishing = State::ActivePending(SEVEN);
        let modifying = State::ModificationPending(SEVEN);
        let releasing = State::InactivePending(SEVEN);
        let complete = Some(Reply::ModificationComplete);
        let released = Some(Reply::ReleaseComplete);
        let table = [
            (
                establishing,
                C2,
                State::Active,
                effect(Ended::Accepted, None),
            ),
            (
                establishing,
                C3,
                State::Inactive,
                effect(Ended::Rejected, None),
            ),
            (modifying, CA, State::Active, effect(Ended::Rejected, None)),
            (
                modifying,
                CB,
                State::Active,
                effect(Ended::Accepted, complete),
            ),
            (releasing, D2, State::Active, effect(Ended::Rejected, None)),
            (
                releasing,
                D3,
                State::Inactive,
                effect(Ended::Accepted, released),
            ),
        ];
        for (before, content, after, outcome) in table {
            takes(
                &rt,
                before,
                message(7, content, None),
                after,
                outcome,
                "answer",
            );
            passes(&rt, before, message(8, content, None), "another PTI");
            passes(&rt, before, message(7, content, Some(0x16)), "5GMM cause");
            passes(&rt, before, message(7, D6, None), "status");
            passes(&rt, State::Active, message(7, content, None), "no request");
            answers_status(&rt, 7, content, "inactive");
        }
        passes(
            &rt,
            establishing,
            message(7, CB, None),
            "CB while establishing",
        );
        passes(&rt, modifying, message(7, D3, None), "D3 while modifying");
        passes(&rt, releasing, message(7, CB, None), "CB while releasing");
        passes(
            &rt,
            State::Inactive,
            message(7, D6, None),
            "D6 while inactive",
        );
    }

    // What the network begins by itself, with PTI 0.
    #[test]
    fn commands(rt: HostRuntime) {
        let modifying = State::ModificationPending(SEVEN);
        let releasing = State::InactivePending(SEVEN);
        let complete = Some(Reply::ModificationComplete);
        let released = Some(Reply::ReleaseComplete);
        let table = [
            (
                State::Active,
                CB,
                State::Active,
                effect(Ended::Nothing, complete),
            ),
            (modifying, CB, modifying, effect(Ended::Nothing, complete)),
            (
                State::Active,
                D3,
                State::Inactive,
                effect(Ended::Nothing, released),
            ),
            (
                modifying,
                D3,
                State::Inactive,
                effect(Ended::Overtaken, released),
            ),
            (
                releasing,
                D3,
                State::Inactive,
                effect(Ended::Overtaken, released),
            ),
        ];
        for (before, content, after, outcome) in table {
            takes(
                &rt,
                before,
                message(0, content, None),
                after,
                outcome,
                "command",
            );
            passes(&rt, before, message(8, content, None), "another PTI");
            passes(&rt, before, message(0, content, Some(0x16)), "5GMM cause");
            passes(
                &rt,
                State::ActivePending(SEVEN),
                message(0, content, None),
                "establishing",
            );
            answers_status(&rt, 0, content, "inactive");
        }
        passes(&rt, releasing, message(0, CB, None), "CB while releasing");
        passes(&rt, State::Active, message(0, C2, None), "C2 while active");
    }

    // Requests that come back with the 5GMM cause.
    #[test]
    fn returned_requests(rt: HostRuntime) {
        let establishing = State::ActivePending(SEVEN);
        let modifying = State::ModificationPending(SEVEN);
        let releasing = State::InactivePending(SEVEN);
        let table = [
            (
                establishing,
                Content::EstablishmentRequest,
                State::Inactive,
                modifying,
            ),
            (
                modifying,
                Content::ModificationRequest,
                State::Active,
                releasing,
            ),
            (
                releasing,
                Content::ReleaseRequest,
                State::Active,
                establishing,
            ),
        ];
        let returned = effect(Ended::Returned, None);
        for (before, content, after, other) in table {
            takes(
                &rt,
                before,
                message(7, content, Some(0x16)),
                after,
                returned,
                "returned",
            );
            passes(&rt, before, message(7, content, None), "no 5GMM cause");
            passes(&rt, before, message(8, content, Some(0x16)), "another PTI");
            passes(&rt, other, message(7, content, Some(0x16)), "another state");
            passes(
                &rt,
                State::Active,
                message(7, content, Some(0x16)),
                "active",
            );
            passes(
                &rt,
                State::Inactive,
                message(7, content, Some(0x16)),
                "inactive",
            );
        }
    }

    // What messages do to the back-off timers.
    #[test]
    fn timer_rules(rt: HostRuntime) {
        let five_minutes = TimerValue::Seconds(300);
        let timer = Some(0xA5);
        let table = [
            (
                Content::EstablishmentReject { cause: 0x1A, timer },
                None,
                TimerRule::Mark(TimerKind::T3396, five_minutes),
            ),
            (
                Content::ModificationReject { cause: 0x43, timer },
                None,
                TimerRule::Mark(TimerKind::T3584, five_minutes),
            ),
            (
                Content::ReleaseCommand { cause: 0x45, timer },
                None,
                TimerRule::Mark(TimerKind::T3585, five_minutes),
            ),
            (
                Content::EstablishmentReject {
                    cause: 0x1A,
                    timer: Some(0xE0),
                },
                None,
                TimerRule::Mark(TimerKind::T3396, TimerValue::Deactivated),
            ),
            (
                Content::EstablishmentReject {
                    cause: 0x1A,
                    timer: Some(0xA0),
                },
                None,
                TimerRule::Mark(TimerKind::T3396, TimerValue::Zero),
            ),
            (C3, None, TimerRule::NoMark),
            (
                Content::EstablishmentReject { cause: 0x16, timer },
                None,
                TimerRule::NoMark,
            ),
            (CB, None, TimerRule::LiftAll),
            (
                Content::ReleaseCommand { cause: 0x27, timer },
                None,
                TimerRule::LiftAll,
            ),
            (
                Content::EstablishmentRequest,
                Some(0x16),
                TimerRule::Mark(TimerKind::T3396, five_minutes),
            ),
            (
                Content::ModificationRequest,
                Some(0x43),
                TimerRule::Mark(TimerKind::T3584, five_minutes),
            ),
            (Content::EstablishmentRequest, Some(0x1A), TimerRule::NoMark),
            (Content::ReleaseRequest, Some(0x16), TimerRule::NoMark),
            (
                Content::ReleaseReject { cause: 0x1A, timer },
                None,
                TimerRule::NoMark,
            ),
        ];
        for (content, mm_cause, rule) in table {
            let received = Received {
                identity: 5,
                pti: 7,
                content,
                mm_cause,
                outer_timer: timer,
            };
            assert_eq!(rt;
                timer_rule(RequestType::Initial, &received, true),
                rule,
                "rule"
            );
            assert_eq!(rt;
                timer_rule(RequestType::Initial, &received, false),
                TimerRule::NoMark
            );
            assert_eq!(rt;
                timer_rule(RequestType::InitialEmergency, &received, true),
                TimerRule::NoMark
            );
        }
    }

    // A request expires five times; the fifth time it is given up.
    fn expires(rt: &impl Abort, mut session: Session, pending: State, after: State) {
        assert_eq!(rt; session.state, pending);
        assert_eq!(rt; session.count(15), Expiry::Nothing);
        assert_eq!(rt; session.count(1), Expiry::Repeat);
        assert_eq!(rt; session.count(4_000_000_000), Expiry::Repeat);
        assert_eq!(rt; session.count(16), Expiry::Repeat);
        assert_eq!(rt; session.count(16), Expiry::Repeat);
        assert_eq!(rt; session.count(15), Expiry::Nothing);
        assert_eq!(rt; session.count(1), Expiry::GiveUp);
        assert_eq!(rt; session.state, after);
        assert_eq!(rt; session.count(100), Expiry::Nothing);
    }

    #[test]
    fn five_expiries(rt: HostRuntime) {
        let fresh = Waiting {
            pti: 7,
            left: 16,
            expiries: 0,
        };
        let mut session = Session::unused();
        let parts = KeyParts {
            network: Network::new([1, 2, 3]),
            slice: Slice::absent(),
            name: Name::absent(),
        };
        session.establish(RequestType::Initial, parts, 7);
        expires(&rt, session, State::ActivePending(fresh), State::Inactive);
        session.modify(7);
        expires(
            &rt,
            session,
            State::ModificationPending(fresh),
            State::Active,
        );
        session.release(7);
        expires(&rt, session, State::InactivePending(fresh), State::Inactive);
    }

    // The message of a waiting request, and replies.
    #[test]
    fn messages(rt: HostRuntime) -> Result<(), Fail> {
        let slice = Slice::new(Some(&[1]))?;
        let name = Name::new(Some(&[0x03, 0x69, 0x6D, 0x73]))?;
        let mut out = [0u8; 128];
        let mut session = Session::unused();
        assert_eq!(rt;
            session.write_pending(5, &mut out),
            Err(PendingRefusal::NotPending)
        );
        assert!(rt; out == [0u8; 128]);
        let parts = KeyParts {
            network: Network::new([1, 2, 3]),
            slice,
            name,
        };
        session.establish(RequestType::Initial, parts, 1);
        assert_eq!(rt; session.write_pending(5, &mut out), Ok(24));
        assert!(rt; out[0..24] == worked_request()[0..24]);
        session.establish(RequestType::InitialEmergency, parts, 1);
        assert_eq!(rt;
            session.write_pending(5, &mut out),
            Err(PendingRefusal::NotWritten(WriteRefusal::NotLawful))
        );
        session.modify(2);
        assert_eq!(rt; session.write_pending(5, &mut out), Ok(12));
        assert!(rt; out[8] == 2 && out[9] == 0xC9);
        session.release(3);
        assert_eq!(rt; session.write_pending(5, &mut out), Ok(12));
        assert!(rt; out[8] == 3 && out[9] == 0xD1);
        assert_eq!(rt; write_reply(Reply::ReleaseComplete, 5, 0, &mut out), Ok(12));
        assert!(rt; out[0..12] == worked_reply()[0..12]);
        Ok(())
    }
}
