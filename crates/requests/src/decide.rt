// Decide, then act: whether a request is admitted, or which question stops it.
ghost use Rattle.std.specs.Prelude.{◌≡◌, map};
ghost use Rattle.sessions.specs.Live.{listed, live_keys, with_key};
ghost use Rattle.sessions.specs.Table.{sessions_view};
ghost use Rattle.requests.specs.State.{state_view};
ghost use Rattle.requests.specs.Decisions.{admitted, let_out_stop, timers_stop, room_stop, keys_stop, establish_stop, own_timers_stop, modify_stop, release_stop};
ghost use Rattle.requests.specs.Wanted.{wanted_view};
ghost use Rattle.session.specs.Session.{session_view, session_parts};
ghost use Rattle.keys.specs.KeyParts.{parts_view};

use crate::question::Question;
use crate::state::State;
use crate::wanted::Wanted;
use keys::key::{NameKey, SliceKey, SliceNameKey};
use keys::parts::{KeyParts, PartsKey};
use session::session::Session;
use sessions::live::LiveKeys;
use sessions::table::Sessions;
use uplink::queue::CAPACITY;

// Requests that may be let out since switch-on.
pub const MOST_LET_OUT: u32 = 1_000_000_000;

// The keys of one kind that live sessions claim, and the request's key behind them.
fn keys_with<K: PartsKey + Copy>(sessions: &Sessions, parts: &KeyParts) -> LiveKeys<K>
    ensures { map K.Key.octets (listed result) ≡ with_key (K.PartsKey.part (parts_view parts.now)) (live_keys (λ v. K.PartsKey.part (session_parts v)) (sessions_view sessions.now)) }
{
    sessions.live_keys().with(K::of_parts(parts))
}

impl State {
    // Questions 11 and 12: how many were let out, and how many wait.
    fn admit_number(&self, waiting: usize) -> Result<(), Question>
        ensures { result ≡ admitted (let_out_stop (state_view self.now) waiting) }
    {
        if self.tally.let_out >= MOST_LET_OUT {
            return Err(Question::LetOut);
        }
        if waiting >= CAPACITY {
            return Err(Question::Waiting);
        }
        Ok(())
    }

    // Questions 7 to 9: the timers on the keys of some parts.
    fn admit_timers(&self, parts: &KeyParts) -> Result<(), Question>
        ensures { result ≡ admitted (timers_stop (state_view self.now) (parts_view parts.now)) }
    {
        match self.timers.barred_by(parts) {
            Some(kind) => Err(Question::from(kind)),
            None => Ok(()),
        }
    }

    // Question 10: with the keys of some parts, at most 32 are claimed of each kind.
    fn admit_claims(&self, parts: &KeyParts) -> Result<(), Question>
        ensures { result ≡ admitted (room_stop (state_view self.now) (parts_view parts.now)) }
    {
        let names = keys_with::<NameKey>(&self.sessions, parts);
        let slice_names = keys_with::<SliceNameKey>(&self.sessions, parts);
        let slices = keys_with::<SliceKey>(&self.sessions, parts);
        if self.timers.has_room(names.as_slice(), slice_names.as_slice(), slices.as_slice()) {
            Ok(())
        } else {
            Err(Question::Claimed)
        }
    }

    // Questions 7 to 10, which an emergency request does not meet.
    fn admit_keys(&self, wanted: &Wanted) -> Result<(), Question>
        ensures { result ≡ admitted (keys_stop (state_view self.now) (wanted_view wanted.now)) }
    {
        if wanted.request_type.is_emergency() {
            return Ok(());
        }
        let parts = wanted.parts(self.network);
        self.admit_timers(&parts)?;
        self.admit_claims(&parts)
    }

    // Questions 7 to 9 on a session's own keys; an emergency session has none.
    fn admit_own_timers(&self, session: &Session) -> Result<(), Question>
        ensures { result ≡ admitted (own_timers_stop (state_view self.now) (session_view session.now)) }
    {
        if session.is_emergency() {
            return Ok(());
        }
        self.admit_timers(&session.parts)
    }

    // Whether an establishment request with lawful parts is admitted: 5, 6, 7 to 10 unless it is an emergency one, 11, 12.
    pub fn admit_establishment(
        &self,
        identity: u8,
        wanted: &Wanted,
        waiting: usize,
    ) -> Result<(), Question>
        ensures { result ≡ admitted (establish_stop (state_view self.now) identity (wanted_view wanted.now) waiting) }
    {
        let session = self.sessions.session(identity).ok_or(Question::Identity)?;
        if !session.is_inactive() {
            return Err(Question::Inactive);
        }
        self.admit_keys(wanted)?;
        self.admit_number(waiting)
    }

    // Whether a modification request is admitted: 5, 13, 7 to 9 on the session's own keys unless it is an emergency one, 11, 12.
    pub fn admit_modification(&self, identity: u8, waiting: usize) -> Result<(), Question>
        ensures { result ≡ admitted (modify_stop (state_view self.now) identity waiting) }
    {
        let session = self.sessions.session(identity).ok_or(Question::Identity)?;
        if !session.is_active() {
            return Err(Question::Active);
        }
        self.admit_own_timers(&session)?;
        self.admit_number(waiting)
    }

    // Whether a release request is admitted: 5, 13, 11, 12.
    pub fn admit_release(&self, identity: u8, waiting: usize) -> Result<(), Question>
        ensures { result ≡ admitted (release_stop (state_view self.now) identity waiting) }
    {
        let session = self.sessions.session(identity).ok_or(Question::Identity)?;
        if !session.is_active() {
            return Err(Question::Active);
        }
        self.admit_number(waiting)
    }
}
