// Uplink messages, written into the caller's buffer.
ghost use Rattle.std.specs.Prelude.{◌≡◌, ◌+◌, ◌≤◌, true, ◌++◌, length};
ghost use Rattle.std.specs.Option.{option_map};
ghost use Rattle.ul_nas.specs.Message.{carried, viewed};
ghost use Rattle.ul_nas.specs.Lawful.{lawful};
ghost use Rattle.ul_nas.specs.Format.{fixed_part, optional, elements, encoding};
ghost use Rattle.ul_nas.specs.Writing.{write_answer, buffer_after, refusal_number};
ghost use Rattle.ul_nas.specs.Laws.{RoundTrip, ReadsBack};

use crate::message::{Content, UplinkMessage};
use arrayvec::ArrayVec;

// Why a message is not written.
#[derive(Clone, Copy, PartialEq, Debug)]
pub enum WriteRefusal {
    // The message is not lawful: question 19 would refuse what would be written.
    NotLawful,
    // The buffer is shorter than the message.
    Short,
}

impl WriteRefusal {
    // The number of the question that refuses: 19, is it a lawful message in its written form? A short buffer has none.
    pub fn number(&self) -> Option<u8>
        ensures { result ≡ refusal_number self.now }
    {
        match *self {
            WriteRefusal::NotLawful => Some(19),
            WriteRefusal::Short => None,
        }
    }
}

// A message as it is being written: no lawful one has more octets.
type Written = ArrayVec<u8, 127>;

// Appends octets.
fn append(written: &mut Written, octets: &[u8])
    requires { length written.old.items + length octets.now ≤ 127 }
    ensures { written.new.items ≡ written.old.items ++ octets.now }
{
    let _ = written.try_extend_from_slice(octets);
}

// Appends an element, if it is present.
fn append_optional(written: &mut Written, identifier: u8, content: Option<&[u8]>)
    requires { length written.old.items + length (optional identifier (option_map (λ x. x.now) content)) ≤ 127 }
    ensures { written.new.items ≡ written.old.items ++ optional identifier (option_map (λ x. x.now) content.entry) }
{
    if let Some(content) = content {
        append(written, &[identifier, content.len() as u8]);
        append(written, content);
    }
}

// Appends what follows the identity: for an establishment request 8T with the request type T, the slice and the name.
fn append_elements(written: &mut Written, content: Content<'_>)
    requires { length written.old.items + length (elements (carried content)) ≤ 127 }
    ensures { written.new.items ≡ written.old.items ++ elements (carried content.entry) }
{
    if let Content::EstablishmentRequest(request) = content {
        append(written, &[request.request_type.octet()]);
        append_optional(written, 0x22, request.slice);
        append_optional(written, 0x25, request.name);
    }
}

// The fixed part behind the message type.
fn fixed_part(content: &Content<'_>) -> &'static [u8]
    ensures { result.now ≡ fixed_part (carried content.now) }
{
    match *content {
        Content::EstablishmentRequest(_) => &[0xFF, 0xFF],
        Content::Status => &[0x2B],
        _ => &[],
    }
}

// The written form of a lawful message.
fn written_form(message: &UplinkMessage<'_>) -> Written
    requires { lawful (viewed message.now) ≡ true }
    ensures { result.items ≡ encoding (viewed message.now) }
{
    let UplinkMessage {
        identity,
        pti,
        content,
    } = *message;
    let fixed = fixed_part(&content);
    let size = 4 + fixed.len() as u8;
    let octet = content.message_type();
    let mut written = ArrayVec::new();
    append(
        &mut written,
        &[
            0x7E, 0x00, 0x67, 0x01, 0x00, size, 0x2E, identity, pti, octet,
        ],
    );
    append(&mut written, fixed);
    append(&mut written, &[0x12, identity]);
    append_elements(&mut written, content);
    written
}

// Writes a message: one that is not lawful is refused first, then a buffer that is too short.
fn write_message(message: &UplinkMessage<'_>, out: &mut [u8]) -> Result<usize, WriteRefusal>
    ensures answer { result ≡ write_answer (viewed message.now) (length out.old) }
    ensures buffer { out.new ≡ buffer_after result (viewed message.now) out.old }
{
    if !message.is_lawful() {
        return Err(WriteRefusal::NotLawful);
    }
    let written = written_form(message);
    let size = written.len();
    if out.len() < size {
        return Err(WriteRefusal::Short);
    }
    out[..size].copy_from_slice(&written);
    Ok(size)
}

// Writes a message at the front of the buffer, and answers how many octets it has; the octets behind it stay.
// It refuses a message that is not lawful, then a buffer that is too short; the buffer is then as it was.
// What is written is read back as the message.
pub fn write(message: &UplinkMessage<'_>, out: &mut [u8]) -> Result<usize, WriteRefusal>
    ensures answer { result ≡ write_answer (viewed message.now) (length out.old) }
    ensures buffer { out.new ≡ buffer_after result (viewed message.now) out.old }
    ensures back { ReadsBack result (viewed message.now) out.new }
    ensures law { RoundTrip }
{
    write_message(message, out)
}
