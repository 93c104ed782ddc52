// The three requests of a switched-on handset. Each is first decided and then carried out, so a refusal changes nothing.
ghost use Rattle.std.specs.Prelude.{◌≡◌};
ghost use Rattle.std.specs.Option.{option_map};
ghost use Rattle.requests.specs.SoundViews.{sound_view};
ghost use Rattle.rules.specs.Requests.{establish_answer, after_establish, waiting_after_establish, modify_answer, after_modify, waiting_after_modify, release_answer, after_release, waiting_after_release};

use crate::switched_on::SwitchedOn;
use keeper::Keeper;
use requests::lawful::LawfulWanted;
use requests::question::Question;
use uplink::queue::Uplink;

impl<U: Uplink, K: Keeper> SwitchedOn<U, K> {
    // Asks to establish a session: its identity, the request type, and slice and name if present. Answers the PTI, or the question that stops the request.
    pub fn establish(
        &mut self,
        identity: u8,
        request_type: u8,
        slice: Option<&[u8]>,
        name: Option<&[u8]>,
    ) -> Result<u8, Question>
        ensures answer { result ≡ establish_answer identity request_type (option_map (λ x. x.now) slice.entry) (option_map (λ x. x.now) name.entry) (sound_view self.old.state) (U.Uplink.waiting self.old.uplink) }
        ensures state { sound_view self.new.state ≡ after_establish result identity request_type (option_map (λ x. x.now) slice.entry) (option_map (λ x. x.now) name.entry) (sound_view self.old.state) }
        ensures queue { U.Uplink.waiting self.new.uplink ≡ waiting_after_establish result identity request_type (option_map (λ x. x.now) slice.entry) (option_map (λ x. x.now) name.entry) (U.Uplink.waiting self.old.uplink) }
        ensures keeper { self.new.keeper ≡ self.old.keeper }
    {
        let wanted = LawfulWanted::new(request_type, slice, name)?;
        let pti = self
            .state
            .establish(identity, &wanted, self.uplink.count())?;
        self.state.send_pending(identity, &mut self.uplink);
        Ok(pti)
    }

    // Asks to modify a session.
    pub fn modify(&mut self, identity: u8) -> Result<u8, Question>
        ensures answer { result ≡ modify_answer identity (sound_view self.old.state) (U.Uplink.waiting self.old.uplink) }
        ensures state { sound_view self.new.state ≡ after_modify result identity (sound_view self.old.state) }
        ensures queue { U.Uplink.waiting self.new.uplink ≡ waiting_after_modify result identity (U.Uplink.waiting self.old.uplink) }
        ensures keeper { self.new.keeper ≡ self.old.keeper }
    {
        let pti = self.state.modify(identity, self.uplink.count())?;
        self.state.send_pending(identity, &mut self.uplink);
        Ok(pti)
    }

    // Asks to release a session.
    pub fn release(&mut self, identity: u8) -> Result<u8, Question>
        ensures answer { result ≡ release_answer identity (sound_view self.old.state) (U.Uplink.waiting self.old.uplink) }
        ensures state { sound_view self.new.state ≡ after_release result identity (sound_view self.old.state) }
        ensures queue { U.Uplink.waiting self.new.uplink ≡ waiting_after_release result identity (U.Uplink.waiting self.old.uplink) }
        ensures keeper { self.new.keeper ≡ self.old.keeper }
    {
        let pti = self.state.release(identity, self.uplink.count())?;
        self.state.send_pending(identity, &mut self.uplink);
        Ok(pti)
    }
}
