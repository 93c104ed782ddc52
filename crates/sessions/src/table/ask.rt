// What the table tells: a session, and the PTIs of the waiting requests.
ghost use Rattle.std.specs.Prelude.{◌≡◌, true, false, [], replicate, Some, count_by};
ghost use Rattle.std.specs.List.{list_any};
ghost use Rattle.std.specs.Option.{option_map};
ghost use Rattle.session.specs.Session.{session_view, unused, waiting_pti};
ghost use Rattle.sessions.specs.Table.{views, sessions_view, place_of, session_of, made_inactive};
ghost use Rattle.sessions.specs.Ptis.{with_pti, among, is_waiting, is_pending, pending, after, next_free, is_pti};

use super::Sessions;
use session::session::Session;

// The place of an identity.
pub(crate) fn place_of(identity: u8) -> Option<usize>
    ensures { result ≡ place_of identity }
{
    match identity {
        1..=15 => Some(usize::from(identity) - 1),
        _ => None,
    }
}

// Whether a request of the session waits.
fn is_pending(session: &Session) -> bool
    ensures { result ≡ is_pending (session_view session.now) }
{
    session.waiting_pti().is_some()
}

// Whether a session's waiting request has this PTI.
fn has_pti(session: &Session, pti: u8) -> bool
    ensures { result ≡ among pti (with_pti (waiting_pti (session_view session.now)) []) }
{
    session.waiting_pti() == Some(pti)
}

// Whether a waiting request of some sessions has this PTI.
fn is_waiting_in(sessions: &[Session], pti: u8) -> bool
    ensures { result ≡ list_any (λ s. among pti (with_pti (waiting_pti (session_view s)) [])) sessions.now }
{
    sessions.iter().any(|session| has_pti(session, pti))
}

// How many requests of some sessions wait.
fn pending_in(sessions: &[Session]) -> usize
    ensures { result ≡ count_by (λ s. is_pending (session_view s)) sessions.now }
{
    sessions
        .iter()
        .filter(|session| is_pending(session))
        .count()
}

// Makes every session INACTIVE.
fn make_all_inactive(sessions: &mut [Session])
    ensures { views sessions.new ≡ made_inactive (views sessions.old) }
{
    for session in sessions.iter_mut() {
        session.deactivate();
    }
}

// The PTI after another, from 1 to 254 and round.
fn after(pti: u8) -> u8
    ensures { result ≡ after pti }
{
    if pti < 254 { pti + 1 } else { 1 }
}

impl Sessions {
    // Fifteen sessions that were never established.
    pub fn new() -> Sessions
        ensures { sessions_view result ≡ replicate 15 unused }
    {
        Sessions {
            records: [Session::unused(); 15],
        }
    }

    // The session of an identity; none for 0 and from 16 up.
    pub fn session(&self, identity: u8) -> Option<Session>
        ensures { option_map session_view result ≡ session_of identity (sessions_view self.now) }
    {
        let place = place_of(identity)?;
        Some(self.records[place])
    }

    // Whether some waiting request has this PTI.
    pub fn is_waiting(&self, pti: u8) -> bool
        ensures { result ≡ is_waiting pti (sessions_view self.now) }
    {
        is_waiting_in(&self.records, pti)
    }

    // How many requests wait.
    pub fn pending(&self) -> usize
        ensures { result ≡ pending (sessions_view self.now) }
    {
        pending_in(&self.records)
    }

    // Makes every session INACTIVE. Their other data stay.
    pub fn make_inactive(&mut self)
        ensures { sessions_view self.new ≡ made_inactive (sessions_view self.old) }
    {
        make_all_inactive(&mut self.records);
    }

    // The next PTI after another that no waiting request has, from 1 to 254 and round.
    pub fn next_pti(&self, last: u8) -> u8
        ensures first { Some result ≡ next_free (sessions_view self.now) last }
        ensures lawful { is_pti result ≡ true }
        ensures free { is_waiting result (sessions_view self.now) ≡ false }
    {
        let mut pti = after(last);
        for _ in 0..15u8 {
            if !self.is_waiting(pti) {
                return pti;
            }
            pti = after(pti);
        }
        pti
    }
}
