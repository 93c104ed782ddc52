// Messages of which it is known what they say, and what is wrong with them.
#![tactic(auto)]

ghost use Rattle.std.specs.Prelude.{◌≡◌, ℕ, ◌+◌, ◌<◌, ◌≤◌, length, slice_set};

#[cfg(test)]
mod tests {
    use dl_nas::message::{Content, Layer, read};
    use std::process::Abort;
    use std::test::Fail;

    // A reject with elements of every length inside and outside. Its container has the places 6 to 18.
    const REJECT: [u8; 34] = [
        0x7E, 0x00, 0x68, 0x01, 0x00, 0x0D, 0x2E, 0x05, 0x01, 0xC3, 0x1A, 0x37, 0x01, 0x21, 0x28,
        0x02, 0xAA, 0xBB, 0x8F, 0x12, 0x05, 0x58, 0x43, 0x37, 0x01, 0xA5, 0x70, 0x00, 0x02, 0x01,
        0x02, 0x56, 0x00, 0x90,
    ];

    // An accept with both blocks of its fixed part. Its container has the places 6 to 27.
    const ACCEPT: [u8; 30] = [
        0x7E, 0x00, 0x68, 0x21, 0x00, 0x16, 0x2E, 0x0F, 0xFE, 0xC2, 0x11, 0x00, 0x03, 0x01, 0x02,
        0x03, 0x02, 0xAA, 0xBB, 0x37, 0x01, 0x05, 0x79, 0x00, 0x01, 0x00, 0x59, 0x24, 0x12, 0x0F,
    ];

    // The message is refused, with this number, in this layer, at this place.
    fn refused(
        rt: &impl Abort,
        message: &[u8],
        number: u8,
        layer: Layer,
        place: usize,
    ) -> Result<(), Fail> {
        let fault = read(message).err().ok_or("accepted")?;
        assert_eq!(rt; fault.number(), number);
        assert_eq!(rt; fault.layer(), layer);
        assert_eq!(rt; fault.place(), place);
        Ok(())
    }

    // The message is read, with this content, 5GMM cause and outer timer octet.
    fn says(
        rt: &impl Abort,
        message: &[u8],
        content: Content,
        mm_cause: Option<u8>,
        outer_timer: Option<u8>,
    ) -> Result<(), Fail> {
        let received = read(message)?;
        assert_eq!(rt; received.content, content);
        assert_eq!(rt; received.mm_cause, mm_cause);
        assert_eq!(rt; received.outer_timer, outer_timer);
        Ok(())
    }

    #[test]
    fn accepted(rt: HostRuntime) -> Result<(), Fail> {
        says(
            &rt,
            &REJECT,
            Content::EstablishmentReject {
                cause: 0x1A,
                timer: Some(0x21),
            },
            Some(0x43),
            Some(0xA5),
        )?;
        says(
            &rt,
            &ACCEPT,
            Content::EstablishmentAccept { timer: Some(0x05) },
            None,
            None,
        )?;
        let received = read(&ACCEPT)?;
        assert_eq!(rt; received.identity, 0x0F);
        assert_eq!(rt; received.pti, 0xFE);
        Ok(())
    }

    #[test]
    fn every_type(rt: HostRuntime) -> Result<(), Fail> {
        let mut message = [
            0x7E, 0x00, 0x68, 0xF1, 0x00, 0x08, 0x2E, 0x05, 0x01, 0xC3, 0x1B, 0x37, 0x01, 0x21,
            0x12, 0x05,
        ];
        says(
            &rt,
            &message,
            Content::EstablishmentReject {
                cause: 0x1B,
                timer: Some(0x21),
            },
            None,
            None,
        )?;
        message[9] = 0xCA;
        says(
            &rt,
            &message,
            Content::ModificationReject {
                cause: 0x1B,
                timer: Some(0x21),
            },
            None,
            None,
        )?;
        message[9] = 0xD2;
        says(
            &rt,
            &message,
            Content::ReleaseReject {
                cause: 0x1B,
                timer: Some(0x21),
            },
            None,
            None,
        )?;
        message[9] = 0xD3;
        says(
            &rt,
            &message,
            Content::ReleaseCommand {
                cause: 0x1B,
                timer: Some(0x21),
            },
            None,
            None,
        )?;
        message[9] = 0xD6;
        says(
            &rt,
            &message,
            Content::Status {
                cause: 0x1B,
                timer: Some(0x21),
            },
            None,
            None,
        )?;
        // Of the handset's own messages nothing behind the header is looked at.
        message[9] = 0xC1;
        says(&rt, &message, Content::EstablishmentRequest, None, None)?;
        message[9] = 0xC9;
        says(&rt, &message, Content::ModificationRequest, None, None)?;
        message[9] = 0xD1;
        says(&rt, &message, Content::ReleaseRequest, None, None)?;
        // A command has no fixed part: 80 is an element of one octet.
        message[9] = 0xCB;
        message[10] = 0x80;
        says(
            &rt,
            &message,
            Content::ModificationCommand { timer: Some(0x21) },
            None,
            None,
        )
    }

    #[test]
    fn returned_with_cause_and_timer(rt: HostRuntime) -> Result<(), Fail> {
        let message = [
            0x7E, 0x00, 0x68, 0x01, 0x00, 0x06, 0x2E, 0x05, 0x01, 0xC1, 0xFF, 0x00, 0x58, 0x5A,
            0x37, 0x01, 0x41, 0x12, 0x05,
        ];
        says(
            &rt,
            &message,
            Content::EstablishmentRequest,
            Some(0x5A),
            Some(0x41),
        )
    }

    #[test]
    fn beginning(rt: HostRuntime) -> Result<(), Fail> {
        refused(&rt, &[], 15, Layer::Transport, 0)?;
        refused(&rt, &[0x7D], 14, Layer::Transport, 0)?;
        refused(&rt, &[0x7E, 0x01, 0x67], 14, Layer::Transport, 1)?;
        refused(&rt, &[0x7E, 0x00, 0x67, 0x02], 14, Layer::Transport, 2)?;
        refused(&rt, &[0x7E, 0x00, 0x68, 0x12], 14, Layer::Transport, 3)?;
        refused(&rt, &[0x7E, 0x00, 0x68], 15, Layer::Transport, 3)
    }

    #[test]
    fn faults_of_the_transport(rt: HostRuntime) -> Result<(), Fail> {
        // The container is empty; the transport is read before it.
        refused(
            &rt,
            &[0x7E, 0x00, 0x68, 0x01, 0x00, 0x00, 0x0F],
            16,
            Layer::Transport,
            6,
        )?;
        refused(
            &rt,
            &[0x7E, 0x00, 0x68, 0x01, 0x00, 0x00, 0x8F, 0x00],
            16,
            Layer::Transport,
            7,
        )?;
        refused(
            &rt,
            &[0x7E, 0x00, 0x68, 0x01, 0x00, 0x00, 0x12],
            15,
            Layer::Transport,
            7,
        )?;
        refused(
            &rt,
            &[0x7E, 0x00, 0x68, 0x01, 0x00, 0x00, 0x70, 0x00],
            15,
            Layer::Transport,
            8,
        )?;
        refused(
            &rt,
            &[0x7E, 0x00, 0x68, 0x01, 0x00, 0x00, 0x70, 0x01, 0x00, 0x00],
            15,
            Layer::Transport,
            10,
        )?;
        // The element before the cut is at fault first.
        refused(
            &rt,
            &[0x7E, 0x00, 0x68, 0x01, 0x00, 0x00, 0x0F, 0x12],
            16,
            Layer::Transport,
            6,
        )
    }

    #[test]
    fn timer_length(rt: HostRuntime) -> Result<(), Fail> {
        refused(
            &rt,
            &[0x7E, 0x00, 0x68, 0x01, 0x00, 0x00, 0x37, 0x00],
            16,
            Layer::Transport,
            7,
        )?;
        refused(
            &rt,
            &[0x7E, 0x00, 0x68, 0x01, 0x00, 0x00, 0x37, 0x02],
            16,
            Layer::Transport,
            7,
        )?;
        refused(
            &rt,
            &[0x7E, 0x00, 0x68, 0x01, 0x00, 0x00, 0x37, 0x01],
            15,
            Layer::Transport,
            8,
        )?;
        refused(
            &rt,
            &[0x7E, 0x00, 0x68, 0x01, 0x00, 0x00, 0x37],
            15,
            Layer::Transport,
            7,
        )?;
        refused(
            &rt,
            &[
                0x7E, 0x00, 0x68, 0x01, 0x00, 0x06, 0x2E, 0x05, 0x01, 0xCB, 0x37, 0x00,
            ],
            16,
            Layer::Container,
            11,
        )?;
        refused(
            &rt,
            &[
                0x7E, 0x00, 0x68, 0x01, 0x00, 0x08, 0x2E, 0x05, 0x01, 0xCB, 0x37, 0x02, 0x01, 0x01,
            ],
            16,
            Layer::Container,
            11,
        )?;
        refused(
            &rt,
            &[
                0x7E, 0x00, 0x68, 0x01, 0x00, 0x06, 0x2E, 0x05, 0x01, 0xCB, 0x37, 0x01, 0x12, 0x05,
            ],
            15,
            Layer::Container,
            12,
        )?;
        refused(
            &rt,
            &[
                0x7E, 0x00, 0x68, 0x01, 0x00, 0x05, 0x2E, 0x05, 0x01, 0xCB, 0x37, 0x12, 0x05,
            ],
            15,
            Layer::Container,
            11,
        )
    }

    #[test]
    fn faults_of_the_container(rt: HostRuntime) -> Result<(), Fail> {
        refused(
            &rt,
            &[0x7E, 0x00, 0x68, 0x01, 0x00, 0x00],
            15,
            Layer::Container,
            6,
        )?;
        refused(
            &rt,
            &[0x7E, 0x00, 0x68, 0x01, 0x00, 0x01, 0x2F],
            17,
            Layer::Container,
            6,
        )?;
        refused(
            &rt,
            &[0x7E, 0x00, 0x68, 0x01, 0x00, 0x03, 0x2E, 0x05, 0x01],
            15,
            Layer::Container,
            9,
        )?;
        refused(
            &rt,
            &[0x7E, 0x00, 0x68, 0x01, 0x00, 0x04, 0x2E, 0x05, 0x01, 0xC4],
            17,
            Layer::Container,
            9,
        )?;
        refused(
            &rt,
            &[0x7E, 0x00, 0x68, 0x01, 0x00, 0x04, 0x2E, 0x05, 0x01, 0xD6],
            15,
            Layer::Container,
            10,
        )?;
        refused(
            &rt,
            &[
                0x7E, 0x00, 0x68, 0x01, 0x00, 0x05, 0x2E, 0x05, 0x01, 0xCB, 0x0F,
            ],
            16,
            Layer::Container,
            10,
        )?;
        // The container is read before the identity is asked for.
        refused(
            &rt,
            &[
                0x7E, 0x00, 0x68, 0x01, 0x00, 0x05, 0x2E, 0x05, 0x01, 0xCB, 0x12, 0x12, 0x06,
            ],
            15,
            Layer::Container,
            11,
        )
    }

    #[test]
    fn identity(rt: HostRuntime) -> Result<(), Fail> {
        refused(
            &rt,
            &[0x7E, 0x00, 0x68, 0x01, 0x00, 0x04, 0x2E, 0x05, 0x01, 0xCB],
            18,
            Layer::Transport,
            10,
        )?;
        refused(
            &rt,
            &[
                0x7E, 0x00, 0x68, 0x01, 0x00, 0x04, 0x2E, 0x05, 0x01, 0xCB, 0x80, 0x12, 0x06,
            ],
            18,
            Layer::Transport,
            11,
        )?;
        // An element 12 inside the container is none outside.
        refused(
            &rt,
            &[
                0x7E, 0x00, 0x68, 0x01, 0x00, 0x06, 0x2E, 0x05, 0x01, 0xCB, 0x12, 0x05,
            ],
            18,
            Layer::Transport,
            12,
        )
    }

    #[test]
    fn first_of_a_repeated_element(rt: HostRuntime) -> Result<(), Fail> {
        let mut message = [
            0x7E, 0x00, 0x68, 0x01, 0x00, 0x0A, 0x2E, 0x05, 0x01, 0xCB, 0x37, 0x01, 0x21, 0x37,
            0x01, 0x22, 0x12, 0x05, 0x12, 0x06, 0x58, 0x43, 0x58, 0x44, 0x37, 0x01, 0x23, 0x37,
            0x01, 0x24,
        ];
        says(
            &rt,
            &message,
            Content::ModificationCommand { timer: Some(0x21) },
            Some(0x43),
            Some(0x23),
        )?;
        message[17] = 0x06;
        message[19] = 0x05;
        refused(&rt, &message, 18, Layer::Transport, 16)
    }

    // Ends the container of a message after n octets, with the element 12 behind it.
    fn end_container(message: &mut [u8], n: usize, identity: u8)
        requires room { 8 + n ≤ length message.old }
        requires short { n < 256 }
        ensures { message.new ≡ slice_set (slice_set (slice_set message.old 5 n) (6 + n) 0x12) (7 + n) identity }
    {
        message[5] = n as u8;
        message[6 + n] = 0x12;
        message[7 + n] = identity;
    }

    #[test]
    fn cuts_of_a_reject(rt: HostRuntime) -> Result<(), Fail> {
        for n in 0..34 {
            let message = &REJECT[0..n];
            match n {
                // Between the outer elements.
                21 | 23 | 26 | 31 | 33 => assert!(rt; read(message).is_ok()),
                19 => refused(&rt, message, 18, Layer::Transport, 19)?,
                _ => refused(&rt, message, 15, Layer::Transport, n)?,
            }
        }
        Ok(())
    }

    #[test]
    fn cuts_of_an_accept(rt: HostRuntime) -> Result<(), Fail> {
        for n in 0..30 {
            let message = &ACCEPT[0..n];
            match n {
                28 => refused(&rt, message, 18, Layer::Transport, 28)?,
                _ => refused(&rt, message, 15, Layer::Transport, n)?,
            }
        }
        Ok(())
    }

    #[test]
    fn cuts_of_the_container_of_a_reject(rt: HostRuntime) -> Result<(), Fail> {
        for n in 0..13 {
            let mut message = REJECT;
            end_container(&mut message, n, 0x05);
            let message = &message[0..8 + n];
            match n {
                // Between the inner elements.
                5 | 8 | 12 => assert!(rt; read(message).is_ok()),
                _ => refused(&rt, message, 15, Layer::Container, 6 + n)?,
            }
        }
        Ok(())
    }

    #[test]
    fn cuts_of_the_container_of_an_accept(rt: HostRuntime) -> Result<(), Fail> {
        for n in 0..22 {
            let mut message = ACCEPT;
            end_container(&mut message, n, 0x0F);
            let message = &message[0..8 + n];
            match n {
                // Behind the fixed part, and between the inner elements.
                13 | 16 | 20 => assert!(rt; read(message).is_ok()),
                _ => refused(&rt, message, 15, Layer::Container, 6 + n)?,
            }
        }
        Ok(())
    }
}
