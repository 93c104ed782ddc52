// Claimed keys: how many different ones there are.
ghost use Rattle.std.specs.Prelude.{◌≡◌, ◌+◌, ◌^◌, ◌<◌, not, ◌&&◌, map};
ghost use Rattle.std.specs.Option.{SomeIff};
ghost use Rattle.bars.specs.Bars.{shown, stands};
ghost use Rattle.bars.specs.Claimed.{among, distinct, claimed_keys, claimed};

use crate::bar::{Bar, is_standing, timer_in};
use keys::key::Key;

// Whether a key of the list is the same.
pub fn is_among<K: Key>(keys: &[K], key: &K) -> bool
    ensures { result ≡ among (K.Key.octets key.now) (map K.Key.octets keys.now) }
{
    keys.contains(key)
}

// How many different keys the list has.
pub fn distinct_in<K: Key>(keys: &[K]) -> usize
    ensures { result ≡ distinct (map K.Key.octets keys.now) }
{
    let mut n = 0;
    let mut rest = keys;
    while let [key, later @ ..] = rest {
        if !is_among(later, key) {
            n += 1;
        }
        rest = later;
    }
    n
}

// Whether a key is claimed: a bar stands on it, or it is among other keys.
pub fn is_claimed<K: Key>(bars: &[Bar<K>], keys: &[K], key: &K) -> bool
    ensures { result ≡ among (K.Key.octets key.now) (claimed_keys (shown K.Key.octets bars.now) (map K.Key.octets keys.now)) }
{
    is_standing(timer_in(bars, key)) || is_among(keys, key)
}

// Whether a bar stands whose key nothing later claims.
fn is_last<K: Key>(bar: &Bar<K>, later: &[Bar<K>], keys: &[K]) -> bool
    ensures { result ≡ (stands bar.now.timer && not (among (K.Key.octets bar.now.key) (claimed_keys (shown K.Key.octets later.now) (map K.Key.octets keys.now)))) }
{
    is_standing(bar.timer) && !is_claimed(later, keys, &bar.key)
}

// How many bars stand whose key nothing later claims.
fn last_in<K: Key>(bars: &[Bar<K>], keys: &[K]) -> usize
    ensures { result + distinct (map K.Key.octets keys.now) ≡ claimed (shown K.Key.octets bars.now) (map K.Key.octets keys.now) }
{
    let mut n = 0;
    let mut rest = bars;
    while let [bar, later @ ..] = rest {
        if is_last(bar, later, keys) {
            n += 1;
        }
        rest = later;
    }
    n
}

// How many different keys are claimed, by bars that stand or by others that have these keys; none where
// the number does not fit.
pub fn claimed_in<K: Key>(bars: &[Bar<K>], keys: &[K]) -> Option<usize>
    ensures { SomeIff result (claimed (shown K.Key.octets bars.now) (map K.Key.octets keys.now) < 2 ^ 64) (claimed (shown K.Key.octets bars.now) (map K.Key.octets keys.now)) }
{
    last_in(bars, keys).checked_add(distinct_in(keys))
}
