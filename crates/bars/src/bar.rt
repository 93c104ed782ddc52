// A bar, and rows of bars.
ghost use Rattle.std.specs.Prelude.{◌≡◌, not, map, length, count_by};
ghost use Rattle.std.specs.List.{prefix_len};
ghost use Rattle.bars.specs.Bars.{bar_octets, shown, stands, holds, timer_on, place_for, has_place, imposed, retimed, lifting, reactivated};
ghost use Rattle.bars.specs.Places.{found, vacant};

use backoff::timer::BackOffTimer;
use keys::key::Key;

// A back-off timer on a key; it stands while it is running or deactivated. One and the same for
// every kind of key.
#[derive(Clone, Copy, PartialEq, Eq, Debug)]
pub struct Bar<K> {
    pub key: K,
    pub timer: BackOffTimer,
}

// Whether a timer is running or deactivated.
pub fn is_standing(timer: BackOffTimer) -> bool
    ensures { result ≡ stands timer }
{
    !timer.permits()
}

// A timer that is stopped if it was deactivated.
pub(crate) fn activated(timer: BackOffTimer) -> BackOffTimer
    ensures { result ≡ reactivated timer }
{
    match timer {
        BackOffTimer::Deactivated => BackOffTimer::Stopped,
        other => other,
    }
}

impl<K: Key> Bar<K> {
    // Whether the bar stands, and is on this key.
    pub fn is_on(&self, key: &K) -> bool
        ensures { result ≡ holds (K.Key.octets key.now) (bar_octets K.Key.octets self.now) }
    {
        is_standing(self.timer) && self.key == *key
    }

    // The bar's timer, stopped if it is on this key.
    pub(crate) fn without(&self, key: &K) -> BackOffTimer
        ensures { result ≡ lifting (K.Key.octets key.now) (K.Key.octets self.now.key) self.now.timer }
    {
        if self.key == *key {
            BackOffTimer::Stopped
        } else {
            self.timer
        }
    }
}

// The timer on a key.
pub fn timer_in<K: Key>(bars: &[Bar<K>], key: &K) -> BackOffTimer
    ensures { result ≡ timer_on (shown K.Key.octets bars.now) (K.Key.octets key.now) }
{
    for bar in bars {
        if bar.is_on(key) {
            return bar.timer;
        }
    }
    BackOffTimer::Stopped
}

// The first place with a bar on the key.
fn held_place<K: Key>(bars: &[Bar<K>], key: &K) -> Option<usize>
    ensures { result ≡ found (prefix_len (λ b. not (holds (K.Key.octets key.now) (bar_octets K.Key.octets b))) bars.now) (length bars.now) }
{
    bars.iter().position(|bar| bar.is_on(key))
}

impl<K> Bar<K> {
    // Whether the bar does not stand, so that its place is free.
    fn is_vacant(&self) -> bool
        ensures { result ≡ vacant self.now }
    {
        !is_standing(self.timer)
    }
}

// The first place at which no bar stands.
fn free_place<K>(bars: &[Bar<K>]) -> Option<usize>
    ensures { result ≡ found (prefix_len (λ b. not (vacant b)) bars.now) (length bars.now) }
{
    bars.iter().position(|bar| bar.is_vacant())
}

// How many bars stand.
pub fn standing_in<K>(bars: &[Bar<K>]) -> usize
    ensures { result ≡ count_by (λ b. stands b.timer) bars.now }
{
    bars.iter().filter(|bar| is_standing(bar.timer)).count()
}

// The place for a bar on a key: where one stands on it, or else the first at which none stands.
fn place_for<K: Key>(bars: &[Bar<K>], key: &K) -> Option<usize>
    ensures { result ≡ found (place_for (K.Key.octets key.now) (shown K.Key.octets bars.now)) (length bars.now) }
{
    match held_place(bars, key) {
        Some(place) => Some(place),
        None => free_place(bars),
    }
}

// Puts a timer at the place for its key; answers whether there is one.
pub(crate) fn impose_in<K: Key + Copy>(bars: &mut [Bar<K>], key: K, timer: BackOffTimer) -> bool
    ensures len { length bars.new ≡ length bars.old }
    ensures answer { result ≡ has_place (K.Key.octets key) (shown K.Key.octets bars.old) }
    ensures after { shown K.Key.octets bars.new ≡ imposed (K.Key.octets key) timer (shown K.Key.octets bars.old) }
{
    match place_for(bars, &key) {
        Some(place) => {
            bars[place] = Bar { key, timer };
            true
        }
        None => false,
    }
}
