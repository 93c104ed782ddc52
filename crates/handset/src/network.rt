// What the network and the clock say to a switched-on handset.
ghost use Rattle.std.specs.Prelude.{◌≡◌};
ghost use Rattle.handset.specs.Replies.{with_reply};
ghost use Rattle.requests.specs.SoundViews.{sound_view};
ghost use Rattle.rules.specs.Reading.{reading_answer, after_reading, waiting_after_reading};
ghost use Rattle.rules.specs.TakingIn.{take_in_answer, after_take_in, waiting_after_take_in};

use crate::switched_on::SwitchedOn;
use dl_nas::message::read;
use intake::take_in;
use keeper::Keeper;
use readings::read_clock;
use rules::answer::{Expired, TakeInRefusal, TakenIn};
use session::messages::write_reply;
use session::outcome::Reply;
use uplink::queue::{LONGEST_MESSAGE, Uplink};

// Sends a reply with the identity and the PTI of the message that it answers.
fn send_reply<U: Uplink>(uplink: &mut U, reply: Reply, identity: u8, pti: u8)
    ensures { U.Uplink.waiting uplink.new ≡ with_reply reply identity pti (U.Uplink.waiting uplink.old) }
{
    let mut out = [0; LONGEST_MESSAGE];
    if let Ok(n) = write_reply(reply, identity, pti, &mut out) {
        let _ = uplink.send(&out[0..n]);
    }
}

impl<U: Uplink, K: Keeper> SwitchedOn<U, K> {
    // Takes in a message of the network. A refusal of any kind leaves everything alone.
    pub fn take_in(&mut self, octets: &[u8]) -> Result<TakenIn, TakeInRefusal>
        ensures answer { result ≡ take_in_answer octets.now (sound_view self.old.state) (U.Uplink.waiting self.old.uplink) }
        ensures state { sound_view self.new.state ≡ after_take_in result octets.now (sound_view self.old.state) }
        ensures queue { U.Uplink.waiting self.new.uplink ≡ waiting_after_take_in result octets.now (U.Uplink.waiting self.old.uplink) }
        ensures keeper { self.new.keeper ≡ self.old.keeper }
    {
        let message = read(octets)?;
        let answer = take_in(&mut self.state, &message, self.uplink.count())?;
        if let Some(reply) = answer.reply {
            send_reply(&mut self.uplink, reply, message.identity, message.pti);
        }
        Ok(answer)
    }

    // A time reading, in whole seconds.
    pub fn time_reading(&mut self, reading: u32) -> Expired
        ensures answer { result ≡ reading_answer reading (sound_view self.old.state) (U.Uplink.waiting self.old.uplink) }
        ensures state { sound_view self.new.state ≡ after_reading reading (sound_view self.old.state) }
        ensures queue { U.Uplink.waiting self.new.uplink ≡ waiting_after_reading reading (sound_view self.old.state) (U.Uplink.waiting self.old.uplink) }
        ensures keeper { self.new.keeper ≡ self.old.keeper }
    {
        read_clock(&mut self.state, &mut self.uplink, reading)
    }
}
