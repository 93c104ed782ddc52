// The keys of the sessions that are not INACTIVE and not emergency.
ghost use Rattle.std.specs.Prelude.{◌≡◌, ◌≤◌, map, length};
ghost use Rattle.session.specs.Session.{session_view};
ghost use Rattle.sessions.specs.Table.{views, sessions_view};
ghost use Rattle.sessions.specs.Live.{listed, live, live_keys};

use super::LiveKeys;
use super::session_key::SessionKey;
use crate::table::Sessions;
use session::session::Session;

// Whether the session claims its keys: it is not INACTIVE and not emergency.
fn is_live(session: &Session) -> bool
    ensures { result ≡ live (session_view session.now) }
{
    !session.is_inactive() && !session.is_emergency()
}

// The keys of the live ones of some sessions, in order.
fn live_keys_in<K: SessionKey + Copy>(sessions: &[Session]) -> LiveKeys<K>
    requires { length sessions.now ≤ 15 }
    ensures { map K.Key.octets (listed result) ≡ live_keys K.SessionKey.part (views sessions.now) }
{
    let mut keys = LiveKeys::none(K::of_session(&Session::unused()));
    for session in sessions {
        if is_live(session) {
            keys.push(K::of_session(session));
        }
    }
    keys
}

impl Sessions {
    // The keys of one kind of the live sessions, in the order of the identities.
    pub fn live_keys<K: SessionKey + Copy>(&self) -> LiveKeys<K>
        ensures { map K.Key.octets (listed result) ≡ live_keys K.SessionKey.part (sessions_view self.now) }
    {
        live_keys_in(&self.records)
    }
}
