// What an establishment request asks for, lawful together.
ghost use Rattle.std.specs.Prelude.{◌≡◌, true};
ghost use Rattle.keys.specs.Parts.{name_octets, slice_octets};
ghost use Rattle.requests.specs.Sound.{lawful_parts};

use crate::question::Question;
use crate::wanted::Wanted;

// The slice and the name have lawful lengths, and under an emergency type both are absent.
#[derive(Clone, Copy)]
pub struct LawfulWanted {
    pub plain: Wanted,
    ghost lawful: { lawful_parts plain.request_type (slice_octets plain.slice) (name_octets plain.name) ≡ true },
}

impl LawfulWanted {
    ghost use Rattle.std.specs.Option.{option_map};
    ghost use Rattle.requests.specs.SoundViews.{told_lawful};
    ghost use Rattle.requests.specs.Wanted.{wanted_of};

    // The questions 1 to 4: the request type, absent parts under an emergency type, the name, the slice.
    pub fn new(
        request_type: u8,
        slice: Option<&[u8]>,
        name: Option<&[u8]>,
    ) -> Result<LawfulWanted, Question>
        ensures { told_lawful result ≡ wanted_of request_type (option_map (λ x. x.now) slice.entry) (option_map (λ x. x.now) name.entry) }
    {
        let plain = Wanted::new(request_type, slice, name)?;
        Ok(LawfulWanted { plain })
    }
}
