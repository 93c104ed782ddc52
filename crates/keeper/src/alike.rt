// The same calls to two keepers, and whether both answer alike.
ghost use Rattle.std.specs.Prelude.{◌≡◌, true, map};
ghost use Rattle.keeper.specs.Alike.{reading, asked, answered_to, after, told_by, after_all, all_alike};

use crate::{Keeper, KeeperRefusal};
use arrayvec::ArrayVec;

// A record's number and its new content, or a record's number and the length of the place into which it is read.
#[derive(Clone, Copy)]
pub enum KeeperCall<'a> {
    Write(u8, &'a [u8]),
    Read(u8, u8),
}

// Octets of the longest place into which a record is read.
const LONGEST_PLACE: usize = u8::MAX as usize;

// The answer to a call, and to a read also the place afterwards.
#[derive(PartialEq, Eq, Drop)]
struct KeeperAnswer {
    answer: Result<(), KeeperRefusal>,
    place: ArrayVec<u8, LONGEST_PLACE>,
}

// Reads a record into a place of so many zeros.
fn read<K: Keeper>(keeper: &K, number: u8, length: u8) -> KeeperAnswer
    ensures answer { result.answer ≡ answered_to (reading number «length») }
    ensures place { result.place.items ≡ told_by (K.Keeper.records keeper.now) (reading number «length») }
{
    let mut place = ArrayVec::from([0; LONGEST_PLACE]);
    place.truncate(usize::from(length));
    let answer = keeper.read(number, &mut place);
    KeeperAnswer { answer, place }
}

// Makes one call.
fn answer<K: Keeper>(keeper: &mut K, call: KeeperCall<'_>) -> KeeperAnswer
    ensures answer { result.answer ≡ answered_to (asked call.entry) }
    ensures place { result.place.items ≡ told_by (K.Keeper.records keeper.old) (asked call.entry) }
    ensures records { K.Keeper.records keeper.new ≡ after (K.Keeper.records keeper.old) (asked call.entry) }
{
    match call {
        KeeperCall::Write(number, content) => KeeperAnswer {
            answer: keeper.write(number, content),
            place: ArrayVec::new(),
        },
        KeeperCall::Read(number, length) => read(keeper, number, length),
    }
}

// Performs the calls on both, in their order, and says whether all were answered alike.
pub fn answer_alike<A: Keeper, B: Keeper>(
    one: &mut A,
    other: &mut B,
    calls: &[KeeperCall<'_>],
) -> bool
    ensures answer { result ≡ all_alike (A.Keeper.records one.old) (B.Keeper.records other.old) (map asked calls.now) }
    ensures one { A.Keeper.records one.new ≡ after_all (A.Keeper.records one.old) (map asked calls.now) }
    ensures other { B.Keeper.records other.new ≡ after_all (B.Keeper.records other.old) (map asked calls.now) }
    ensures law { A.Keeper.records one.old ≡ B.Keeper.records other.old → (result ≡ true) × (A.Keeper.records one.new ≡ B.Keeper.records other.new) }
{
    let mut same = true;
    for call in calls {
        same &= answer(one, *call) == answer(other, *call);
    }
    same
}
