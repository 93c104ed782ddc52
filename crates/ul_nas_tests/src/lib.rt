// Uplink messages of which it is known how they are written and read.
#![tactic(auto)]

#[cfg(test)]
mod tests {
    use std::process::Abort;
    use std::test::Fail;
    use ul_nas::laws::{longest_encoding, worked_reply, worked_request};
    use ul_nas::message::{Content, Establishment, RequestType, UnknownRequestType, UplinkMessage};
    use ul_nas::read::read;
    use ul_nas::write::{WriteRefusal, write};

    fn request<'a>(
        request_type: RequestType,
        slice: Option<&'a [u8]>,
        name: Option<&'a [u8]>,
    ) -> UplinkMessage<'a> {
        UplinkMessage {
            identity: 5,
            pti: 1,
            content: Content::EstablishmentRequest(Establishment {
                request_type,
                slice,
                name,
            }),
        }
    }

    // Writes a message: how many octets it has, that those behind it stay, and that it is read back.
    fn reads_back(rt: &impl Abort, message: &UplinkMessage<'_>, length: usize) {
        let untouched = [0xAAu8; 128];
        let mut out = untouched;
        assert_eq!(rt; write(message, &mut out), Ok(length));
        assert!(rt; length < 128, "too long");
        assert!(rt; out[length..] == untouched[length..]);
        assert_eq!(rt; read(&out[0..length]), Ok(*message));
    }

    // A message that is not written: the refusal, and that the buffer stays.
    fn refuses(rt: &impl Abort, message: &UplinkMessage<'_>) {
        let mut out = [0xAAu8; 128];
        assert_eq!(rt; write(message, &mut out), Err(WriteRefusal::NotLawful));
        assert_eq!(rt; WriteRefusal::NotLawful.number(), Some(19));
        assert!(rt; out == [0xAAu8; 128]);
    }

    // The content whose container is the header only, or a status message.
    fn plain_content(octet: u8) -> Content<'static> {
        match octet {
            0xC9 => Content::ModificationRequest,
            0xD1 => Content::ReleaseRequest,
            0xCC => Content::ModificationComplete,
            0xD4 => Content::ReleaseComplete,
            _ => Content::Status,
        }
    }

    fn plain_reads_back(rt: &impl Abort, identity: u8, pti: u8, octet: u8, length: usize) {
        let message = UplinkMessage {
            identity,
            pti,
            content: plain_content(octet),
        };
        assert_eq!(rt; message.content.message_type(), octet);
        reads_back(rt, &message, length);
    }

    fn plain_refused(rt: &impl Abort, identity: u8, pti: u8, octet: u8) {
        let message = UplinkMessage {
            identity,
            pti,
            content: plain_content(octet),
        };
        refuses(rt, &message);
    }

    fn request_refused(rt: &impl Abort, pti: u8) {
        let lawful = request(RequestType::Initial, Some(&[1]), Some(b"a"));
        let message = UplinkMessage {
            identity: 5,
            pti,
            content: lawful.content,
        };
        refuses(rt, &message);
    }

    fn slice_refused(rt: &impl Abort, slice: &[u8]) {
        let message = request(RequestType::Initial, Some(slice), None);
        refuses(rt, &message);
    }

    fn name_refused(rt: &impl Abort, name: &[u8]) {
        let message = request(RequestType::Existing, None, Some(name));
        refuses(rt, &message);
    }

    #[test]
    fn every_kind(rt: HostRuntime) {
        plain_reads_back(&rt, 1, 254, 0xC9, 12);
        plain_reads_back(&rt, 15, 1, 0xD1, 12);
        plain_reads_back(&rt, 2, 0, 0xCC, 12);
        plain_reads_back(&rt, 3, 254, 0xD4, 12);
        plain_reads_back(&rt, 4, 255, 0xD6, 13);
    }

    #[test]
    fn every_request_type(rt: HostRuntime) {
        reads_back(&rt, &request(RequestType::InitialEmergency, None, None), 15);
        reads_back(
            &rt,
            &request(RequestType::ExistingEmergency, None, None),
            15,
        );
        reads_back(&rt, &request(RequestType::Existing, None, None), 15);
        reads_back(
            &rt,
            &request(RequestType::Initial, Some(&[1, 2, 3, 4]), None),
            21,
        );
        reads_back(&rt, &request(RequestType::Initial, None, Some(b"a")), 18);
        reads_back(
            &rt,
            &request(RequestType::Initial, Some(&[1; 8]), Some(&[0x61; 100])),
            longest_encoding(),
        );
    }

    #[test]
    fn request_type_numbers(rt: HostRuntime) {
        assert_eq!(rt; RequestType::try_from(0), Err(UnknownRequestType));
        assert_eq!(rt; RequestType::try_from(1), Ok(RequestType::Initial));
        assert_eq!(rt;
            RequestType::try_from(4),
            Ok(RequestType::ExistingEmergency)
        );
        assert_eq!(rt; RequestType::try_from(5), Err(UnknownRequestType));
        assert_eq!(rt; RequestType::InitialEmergency.number(), 3);
        assert!(rt; RequestType::InitialEmergency.is_emergency());
        assert!(rt; !RequestType::Existing.is_emergency());
    }

    #[test]
    fn worked_messages(rt: HostRuntime) {
        let mut out = [0u8; 24];
        let message = request(
            RequestType::Initial,
            Some(&[0x01]),
            Some(&[0x03, 0x69, 0x6D, 0x73]),
        );
        assert_eq!(rt; write(&message, &mut out), Ok(24));
        assert!(rt; out == worked_request());
        assert_eq!(rt; message.content.message_type(), 0xC1);
        let mut out = [0u8; 12];
        let reply = UplinkMessage {
            identity: 5,
            pti: 0,
            content: Content::ReleaseComplete,
        };
        assert_eq!(rt; write(&reply, &mut out), Ok(12));
        assert!(rt; out == worked_reply());
    }

    // Every buffer that is shorter than the message is refused, and stays.
    #[test]
    fn short_buffers(rt: HostRuntime) {
        let message = request(
            RequestType::Initial,
            Some(&[0x01]),
            Some(&[0x03, 0x69, 0x6D, 0x73]),
        );
        for length in 0..24 {
            let mut out = [0xAAu8; 24];
            assert_eq!(rt;
                write(&message, &mut out[0..length]),
                Err(WriteRefusal::Short)
            );
            assert!(rt; out == [0xAAu8; 24]);
        }
        assert_eq!(rt; WriteRefusal::Short.number(), None);
    }

    #[test]
    fn unlawful_numbers(rt: HostRuntime) {
        for identity in [0u8, 16, 255] {
            plain_refused(&rt, identity, 1, 0xC9);
            plain_refused(&rt, identity, 1, 0xD6);
        }
        for pti in [0u8, 255] {
            plain_refused(&rt, 5, pti, 0xC9);
            plain_refused(&rt, 5, pti, 0xD1);
            request_refused(&rt, pti);
        }
        plain_refused(&rt, 5, 255, 0xCC);
        plain_refused(&rt, 5, 255, 0xD4);
    }

    #[test]
    fn unlawful_elements(rt: HostRuntime) {
        let octets = [0x61u8; 101];
        for length in [0usize, 3, 6, 7, 9] {
            slice_refused(&rt, &octets[0..length]);
        }
        name_refused(&rt, &octets[0..0]);
        name_refused(&rt, &octets);
        refuses(
            &rt,
            &request(RequestType::InitialEmergency, None, Some(b"a")),
        );
        refuses(
            &rt,
            &request(RequestType::ExistingEmergency, Some(&[1]), None),
        );
    }

    // The worked request with another octet at one place: refused, or another message with exactly these octets.
    fn changed(rt: &impl Abort, place: usize, octet: u8) -> bool {
        let mut octets = worked_request();
        if place >= 24 || octets[place] == octet {
            return false;
        }
        octets[place] = octet;
        let Ok(message) = read(&octets) else {
            return false;
        };
        let mut out = [0u8; 24];
        assert_eq!(rt; write(&message, &mut out), Ok(24));
        assert!(rt; out == octets);
        true
    }

    // Of the 24 times 255 changes, those of the PTI to 2 to 254, of the request type to existing, and of an octet of slice or name are read.
    #[test]
    fn changed_octets(rt: HostRuntime) {
        for place in 0..24 {
            let here = (0..=255u8)
                .filter(|octet| changed(&rt, place, *octet))
                .count();
            let expected = match place {
                8 => 253,
                14 => 1,
                17 | 20..=23 => 255,
                _ => 0,
            };
            assert_eq!(rt; here, expected);
        }
    }

    fn refused(rt: &impl Abort, octets: &[u8]) -> Result<(), Fail> {
        let refusal = read(octets).err().ok_or("read")?;
        assert_eq!(rt; refusal.number(), 19);
        Ok(())
    }

    // The worked request, cut at every length, and with one octet more.
    #[test]
    fn cut_octets(rt: HostRuntime) -> Result<(), Fail> {
        let octets = worked_request();
        for length in 0..24 {
            let whole = length == 15 || length == 18;
            assert_eq!(rt; read(&octets[0..length]).is_ok(), whole);
        }
        refused(
            &rt,
            &[
                0x7E, 0x00, 0x67, 0x01, 0x00, 0x04, 0x2E, 0x05, 0x00, 0xD4, 0x12, 0x05, 0x00,
            ],
        )
    }

    #[test]
    fn refused_octets(rt: HostRuntime) -> Result<(), Fail> {
        refused(&rt, &[])?;
        refused(
            &rt,
            &[
                0x7E, 0x00, 0x67, 0x01, 0x00, 0x04, 0x2E, 0x05, 0x00, 0xD1, 0x12, 0x05,
            ],
        )?;
        refused(
            &rt,
            &[
                0x7E, 0x00, 0x67, 0x01, 0x00, 0x04, 0x2E, 0x05, 0xFF, 0xD4, 0x12, 0x05,
            ],
        )?;
        refused(
            &rt,
            &[
                0x7E, 0x00, 0x67, 0x01, 0x00, 0x04, 0x2E, 0x00, 0x01, 0xC9, 0x12, 0x00,
            ],
        )?;
        refused(
            &rt,
            &[
                0x7E, 0x00, 0x67, 0x01, 0x00, 0x04, 0x2E, 0x10, 0x01, 0xC9, 0x12, 0x10,
            ],
        )?;
        refused(
            &rt,
            &[
                0x7E, 0x00, 0x67, 0x01, 0x00, 0x04, 0x2E, 0x05, 0x01, 0xC2, 0x12, 0x05,
            ],
        )?;
        refused(
            &rt,
            &[
                0x7E, 0x00, 0x67, 0x01, 0x00, 0x05, 0x2E, 0x05, 0x01, 0xD6, 0x2C, 0x12, 0x05,
            ],
        )?;
        refused(
            &rt,
            &[
                0x7E, 0x00, 0x67, 0x01, 0x00, 0x06, 0x2E, 0x05, 0x01, 0xC1, 0xFF, 0xFF, 0x12, 0x05,
                0x83, 0x22, 0x01, 0x01,
            ],
        )?;
        refused(
            &rt,
            &[
                0x7E, 0x00, 0x67, 0x01, 0x00, 0x06, 0x2E, 0x05, 0x01, 0xC1, 0xFF, 0xFF, 0x12, 0x05,
                0x81, 0x25, 0x00,
            ],
        )
    }
}
