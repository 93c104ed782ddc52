// The requests of a sound state, and the message of a waiting request.
ghost use Rattle.std.specs.Prelude.{◌≡◌, length};
ghost use Rattle.requests.specs.Decisions.{establish_stop, modify_stop, release_stop};
ghost use Rattle.requests.specs.LettingOut.{let_out_establishment, let_out_modification, let_out_release, unless_stopped, after_request};
ghost use Rattle.requests.specs.Sending.{waiting_message, sends, with_message};
ghost use Rattle.requests.specs.SoundViews.{sound_view, lawful_view};

use super::SoundState;
use crate::lawful::LawfulWanted;
use crate::question::Question;
use uplink::queue::{LONGEST_MESSAGE, Uplink};

impl SoundState {
    // Lets an establishment request out with the next PTI, or answers the question that stops it.
    pub fn establish(
        &mut self,
        identity: u8,
        wanted: &LawfulWanted,
        waiting: usize,
    ) -> Result<u8, Question>
        ensures answer { result ≡ unless_stopped (establish_stop (sound_view self.old) identity (lawful_view wanted.now) waiting) (sound_view self.old) }
        ensures state { sound_view self.new ≡ after_request result (let_out_establishment identity (lawful_view wanted.now)) (sound_view self.old) }
    {
        self.plain.establish(identity, &wanted.plain, waiting)
    }

    // Lets a modification request out with the next PTI, or answers the question that stops it.
    pub fn modify(&mut self, identity: u8, waiting: usize) -> Result<u8, Question>
        ensures answer { result ≡ unless_stopped (modify_stop (sound_view self.old) identity waiting) (sound_view self.old) }
        ensures state { sound_view self.new ≡ after_request result (let_out_modification identity) (sound_view self.old) }
    {
        self.plain.modify(identity, waiting)
    }

    // Lets a release request out with the next PTI, or answers the question that stops it.
    pub fn release(&mut self, identity: u8, waiting: usize) -> Result<u8, Question>
        ensures answer { result ≡ unless_stopped (release_stop (sound_view self.old) identity waiting) (sound_view self.old) }
        ensures state { sound_view self.new ≡ after_request result (let_out_release identity) (sound_view self.old) }
    {
        self.plain.release(identity, waiting)
    }

    // Sends the message of the waiting request of an identity, and answers whether there was one and room for it.
    pub fn send_pending<U: Uplink>(&self, identity: u8, uplink: &mut U) -> bool
        ensures answer { result ≡ sends (waiting_message identity (sound_view self.now)) (length (U.Uplink.waiting uplink.old)) }
        ensures queue { U.Uplink.waiting uplink.new ≡ with_message (waiting_message identity (sound_view self.now)) (U.Uplink.waiting uplink.old) }
    {
        let mut out = [0; LONGEST_MESSAGE];
        match self.plain.sessions.write_pending(identity, &mut out) {
            Ok(n) => uplink.send(&out[0..n]).is_ok(),
            Err(_) => false,
        }
    }
}
