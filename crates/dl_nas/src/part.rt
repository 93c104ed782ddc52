// A part of the received octets: a layer, or what is left of it.
ghost use Rattle.std.specs.Prelude.{◌≡◌, ◌+◌, ◌^◌, ◌<◌, ◌≤◌, length, drop, MatchOption};

// Octets of a message, and the place of the first of them in the whole message.
#[derive(Clone, Copy)]
pub(crate) struct Part<'a> {
    pub(crate) octets: &'a [u8],
    pub(crate) place: usize,
    ghost fits: { place + length octets.now < 2 ^ 64 },
}

impl<'a> Part<'a> {
    // One past the last octet.
    pub(crate) fn end(&self) -> usize
        ensures { result ≡ self.now.place + length self.now.octets.now }
    {
        self.place + self.octets.len()
    }

    // What follows the first octets, where there are that many.
    pub(crate) fn past(&self, size: usize) -> Option<Part<'a>>
        ensures { MatchOption result (length self.now.octets.now < size)
            (λ p. (p.octets.now ≡ drop size self.now.octets.now) × (p.place ≡ self.now.place + size)
            × (size ≤ length self.now.octets.now)) }
    {
        let (_, octets) = self.octets.split_at_checked(size)?;
        Some(Part {
            octets,
            place: self.place + size,
        })
    }
}
