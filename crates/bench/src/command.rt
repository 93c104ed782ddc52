// What a line of the script asks for.
ghost use Rattle.std.specs.Prelude.{◌≡◌};
ghost use Rattle.bench.specs.Verbs.{verb_named};

use bar_record::kept::RECORD_LENGTH;
use script::hex::{octet, octets};
use script::number::number;
use script::text::word;
use std::alloc::{AllocError, Global};

// A call of the bench, with its arguments.
#[derive(Drop)]
pub enum Command {
    Octet(u8),
    Seconds(u32),
    Read(Vec<u8>),
    Sent(Vec<u8>),
    Record(Vec<u8>),
}

// A line of the script: an empty line or a remark, a call, or neither.
#[derive(Drop)]
pub enum Line {
    Remark,
    Call(Command),
    NotUnderstood,
}

// The first word of a call.
#[derive(Clone, Copy)]
enum Verb {
    Octet,
    Seconds,
    Read,
    Sent,
    Record,
}

// The call that a word names.
fn verb_of(word: &[u8]) -> Option<Verb>
    ensures { result ≡ verb_named word.now }
{
    match word {
        b"octet" => Some(Verb::Octet),
        b"seconds" => Some(Verb::Seconds),
        b"read" => Some(Verb::Read),
        b"sent" => Some(Verb::Sent),
        b"record" => Some(Verb::Record),
        _ => None,
    }
}

// The octets of a word in hexadecimal; `.` stands for none.
fn octets_of(heap: Global, word: &[u8]) -> Result<Option<Vec<u8>>, AllocError> {
    match word {
        b"." => Ok(Some(Vec::new(heap))),
        [] => Ok(None),
        _ => octets(heap, word),
    }
}

// The call of a line of two words, where it has the form of one.
fn call(heap: Global, line: &[u8]) -> Result<Option<Command>, AllocError> {
    let argument = word(line, 1);
    let Some(verb) = verb_of(word(line, 0)) else {
        return Ok(None);
    };
    Ok(match verb {
        Verb::Octet => octet(argument).map(Command::Octet),
        Verb::Seconds => number(argument).map(Command::Seconds),
        Verb::Read => octets_of(heap, argument)?.map(Command::Read),
        Verb::Sent => octets_of(heap, argument)?.map(Command::Sent),
        Verb::Record => octets_of(heap, argument)?
            .filter(|octets| octets.len() == RECORD_LENGTH)
            .map(Command::Record),
    })
}

// What a line asks for.
pub fn understand(heap: Global, line: &[u8]) -> Result<Line, AllocError> {
    if let [] | [b'#', ..] = line {
        return Ok(Line::Remark);
    }
    if !word(line, 2).is_empty() {
        return Ok(Line::NotUnderstood);
    }
    let command = call(heap, line)?;
    Ok(command.map_or(Line::NotUnderstood, Line::Call))
}
