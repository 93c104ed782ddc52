ghost use Rattle.std.specs.Prelude.{◌≡◌, ◌≤◌, length};

pub mod methods;
pub mod of_sessions;
pub mod session_key;

// The keys of live sessions, with room for the key of one request more: at most 16.
#[derive(Drop)]
pub struct LiveKeys<K> {
    keys: [K; 16],
    count: usize,
    ghost full: { length keys ≡ 16 },
    ghost within: { count ≤ 16 },
}
