// The kinds of key that every session has.
ghost use Rattle.std.specs.Prelude.{◌≡◌};
ghost use Rattle.keys.specs.Octets.{KeyOctets};
ghost use Rattle.session.specs.Session.{SessionView, session_view, session_parts};

use keys::key::Key;
use keys::parts::PartsKey;
use session::session::Session;

// A kind of key that every session has: it may be read from all that the session holds.
pub trait SessionKey: Key {
    ghost part: { SessionView → KeyOctets };

    fn of_session(session: &Session) -> Self
        ensures { Self.Key.octets result ≡ part (session_view session.now) };
}

// A key that is made of network, slice and name is made of those of the session.
impl<K: PartsKey> SessionKey for K {
    ghost part = { λ v. K.PartsKey.part (session_parts v) };

    fn of_session(session: &Session) -> K {
        K::of_parts(&session.parts)
    }
}
