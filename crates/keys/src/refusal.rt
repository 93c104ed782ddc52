// Why octets make no name or no slice.
ghost use Rattle.std.specs.Prelude.{◌≡◌};
ghost use Rattle.keys.specs.Refusals.{part_question};

// The part that is not lawful, with the number of its question: 3, is the name lawful; 4, is the slice lawful.
#[derive(Clone, Copy, PartialEq, Eq, Debug)]
pub enum PartRefusal {
    Name = 3,
    Slice = 4,
}

impl PartRefusal {
    // The number of the question that was answered no.
    pub fn number(self) -> u8
        ensures { result ≡ part_question self }
    {
        self as u8
    }
}
