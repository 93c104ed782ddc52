// A list of at most 16 keys.
ghost use Rattle.std.specs.Prelude.{◌≡◌, []};
ghost use Rattle.sessions.specs.Live.{listed, with_key};

use super::LiveKeys;

impl<K: Copy> LiveKeys<K> {
    // No key; the places are filled with one that does not count.
    pub(crate) fn none(filling: K) -> LiveKeys<K>
        ensures { listed result ≡ [] }
    {
        LiveKeys {
            keys: [filling; 16],
            count: 0,
        }
    }

    // The keys, in order.
    pub fn as_slice(&self) -> &[K]
        ensures { result.now ≡ listed self.now }
    {
        &self.keys[..self.count]
    }

    // Puts a key behind the others, where there is room.
    pub(crate) fn push(&mut self, key: K)
        ensures { listed self.new ≡ with_key key (listed self.old) }
    {
        if self.count < 16 {
            self.keys[self.count] = key;
            self.count += 1;
        }
    }

    // One key more, behind the others; 16 keys stay as they are.
    pub fn with(mut self, key: K) -> LiveKeys<K>
        ensures { listed result ≡ with_key key (listed self) }
    {
        self.push(key);
        self
    }
}
