// The longest message, and two worked messages.
ghost use Rattle.std.specs.Prelude.{◌≡◌, Some};
ghost use Rattle.ul_nas.specs.Format.{encoding};
ghost use Rattle.ul_nas.specs.Reading.{told};
ghost use Rattle.ul_nas.specs.Laws.{LongestIs};
ghost use Rattle.ul_nas.specs.Worked.{worked_request, worked_request_octets, worked_reply, worked_reply_octets};

// The most octets that a lawful message has: up to the request type, the slice and the name with identifier and length.
pub fn longest_encoding() -> usize
    ensures value { result ≡ 127 }
    ensures law { LongestIs result }
{
    15 + 2 + 8 + 2 + 100
}

// An initial request for the session 5, with PTI 1, a slice and a name.
pub fn worked_request() -> [u8; 24]
    ensures octets { result ≡ worked_request_octets }
    ensures written { result ≡ encoding worked_request }
    ensures read { told result ≡ Some worked_request }
{
    [
        0x7E, 0x00, 0x67, 0x01, 0x00, 0x06, 0x2E, 0x05, 0x01, 0xC1, 0xFF, 0xFF, 0x12, 0x05, 0x81,
        0x22, 0x01, 0x01, 0x25, 0x04, 0x03, 0x69, 0x6D, 0x73,
    ]
}

// The completion of a release of the session 5 that the network began.
pub fn worked_reply() -> [u8; 12]
    ensures octets { result ≡ worked_reply_octets }
    ensures written { result ≡ encoding worked_reply }
    ensures read { told result ≡ Some worked_reply }
{
    [
        0x7E, 0x00, 0x67, 0x01, 0x00, 0x04, 0x2E, 0x05, 0x00, 0xD4, 0x12, 0x05,
    ]
}
