ghost use Rattle.std.specs.Prelude.{◌≡◌, length};

// A PLMN of 3 octets.
#[derive(Clone, Copy, PartialEq, Eq, Debug)]
pub struct Network {
    octets: [u8; 3],
    ghost full: { length octets ≡ 3 },
}

impl Network {
    pub fn new(octets: [u8; 3]) -> Network
        ensures { result.octets ≡ octets }
    {
        Network { octets }
    }

    pub fn octets(&self) -> &[u8]
        ensures value { result.now ≡ self.now.octets }
        ensures len { length result.now ≡ 3 }
    {
        &self.octets
    }
}
