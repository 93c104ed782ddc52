// Writing the record of a bar.
ghost use Rattle.std.specs.Prelude.{◌≡◌, length};
ghost use Rattle.bar_record.specs.Record.{kept_view};
ghost use Rattle.bar_record.specs.Answers.{write_answer, place_after};

use crate::kept::{KeptBar, RECORD_LENGTH};

// Why a record is not written: the place has not 128 octets, or the seconds are none or too many. The length is looked at first.
#[derive(Clone, Copy, PartialEq, Eq, Debug)]
pub enum RecordRefusal {
    Length,
    Seconds,
}

// Writes the record of a bar into a place of 128 octets. A refusal writes nothing.
pub fn write(bar: &KeptBar, record: &mut [u8]) -> Result<(), RecordRefusal>
    ensures answer { result ≡ write_answer (kept_view bar.now) (length «record».old) }
    ensures place { «record».new ≡ place_after result (kept_view bar.now) «record».old }
{
    if record.len() != RECORD_LENGTH {
        return Err(RecordRefusal::Length);
    }
    let bar = bar.lawful().ok_or(RecordRefusal::Seconds)?;
    record.copy_from_slice(&bar.record());
    Ok(())
}
