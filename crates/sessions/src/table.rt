ghost use Rattle.std.specs.Prelude.{◌≡◌, length};

pub mod ask;
pub mod lend;

use session::session::Session;

// The fifteen sessions: identity 1 is at place 0, identity 15 at place 14.
#[derive(Drop)]
pub struct Sessions {
    pub(crate) records: [Session; 15],
    ghost full: { length records ≡ 15 },
}
