// Acting on a decision: a request that no question stops is let out, and waits from then on.
ghost use Rattle.std.specs.Prelude.{◌≡◌, ◌<◌, Some};
ghost use Rattle.sessions.specs.Ptis.{next_free};
ghost use Rattle.sessions.specs.Table.{sessions_view};
ghost use Rattle.requests.specs.Decisions.{establish_stop, modify_stop, release_stop};
ghost use Rattle.requests.specs.LettingOut.{with_pti_given, let_out_establishment, let_out_modification, let_out_release, stopped_by, given_pti, pti_unless, after_request};
ghost use Rattle.requests.specs.State.{state_view};
ghost use Rattle.requests.specs.Wanted.{wanted_view};

use crate::question::Question;
use crate::state::State;
use crate::wanted::Wanted;

impl State {
    // Gives the next PTI to a request that is let out, and counts the request.
    fn give_pti(&mut self) -> u8
        requires { self.old.tally.let_out < 1000000000 }
        ensures next { Some result ≡ next_free (sessions_view self.old.sessions) self.old.last_pti }
        ensures state { state_view self.new ≡ with_pti_given result (state_view self.old) }
        ensures network { self.new.network ≡ self.old.network }
    {
        let pti = self.sessions.next_pti(self.last_pti);
        self.last_pti = pti;
        self.tally.let_out += 1;
        pti
    }

    // Lets an establishment request out with the next PTI, or answers the question that stops it.
    pub fn establish(
        &mut self,
        identity: u8,
        wanted: &Wanted,
        waiting: usize,
    ) -> Result<u8, Question>
        ensures stop { stopped_by result ≡ establish_stop (state_view self.old) identity (wanted_view wanted.now) waiting }
        ensures pti { given_pti result ≡ pti_unless (establish_stop (state_view self.old) identity (wanted_view wanted.now) waiting) (state_view self.old) }
        ensures state { state_view self.new ≡ after_request result (let_out_establishment identity (wanted_view wanted.now)) (state_view self.old) }
    {
        self.admit_establishment(identity, wanted, waiting)?;
        let pti = self.give_pti();
        let parts = wanted.parts(self.network);
        self.sessions
            .establish(identity, wanted.request_type, parts, pti);
        Ok(pti)
    }

    // Lets a modification request out with the next PTI, or answers the question that stops it.
    pub fn modify(&mut self, identity: u8, waiting: usize) -> Result<u8, Question>
        ensures stop { stopped_by result ≡ modify_stop (state_view self.old) identity waiting }
        ensures pti { given_pti result ≡ pti_unless (modify_stop (state_view self.old) identity waiting) (state_view self.old) }
        ensures state { state_view self.new ≡ after_request result (let_out_modification identity) (state_view self.old) }
    {
        self.admit_modification(identity, waiting)?;
        let pti = self.give_pti();
        self.sessions.modify(identity, pti);
        Ok(pti)
    }

    // Lets a release request out with the next PTI, or answers the question that stops it.
    pub fn release(&mut self, identity: u8, waiting: usize) -> Result<u8, Question>
        ensures stop { stopped_by result ≡ release_stop (state_view self.old) identity waiting }
        ensures pti { given_pti result ≡ pti_unless (release_stop (state_view self.old) identity waiting) (state_view self.old) }
        ensures state { state_view self.new ≡ after_request result (let_out_release identity) (state_view self.old) }
    {
        self.admit_release(identity, waiting)?;
        let pti = self.give_pti();
        self.sessions.release(identity, pti);
        Ok(pti)
    }
}
