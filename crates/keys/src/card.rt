ghost use Rattle.std.specs.Prelude.{◌≡◌, length};

// A USIM identity of 8 octets.
#[derive(Clone, Copy, PartialEq, Eq, Debug)]
pub struct Card {
    octets: [u8; 8],
    ghost full: { length octets ≡ 8 },
}

impl Card {
    pub fn new(octets: [u8; 8]) -> Card
        ensures { result.octets ≡ octets }
    {
        Card { octets }
    }

    pub fn octets(&self) -> &[u8]
        ensures value { result.now ≡ self.now.octets }
        ensures len { length result.now ≡ 8 }
    {
        &self.octets
    }
}
