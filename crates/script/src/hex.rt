// Octets in hexadecimal: digits in either case are read, capitals are written.
ghost use Rattle.std.specs.Prelude.{◌≡◌, ◌<◌, Some, IfOk};
ghost use Rattle.std.specs.Option.{option_map};
ghost use Rattle.script.specs.Hex.{digit_of, octet_of, octets_of, lone_octet, capital, capitals};

use std::alloc::{AllocError, Global};
use std::fmt;

// The value of a digit.
pub fn digit(character: u8) -> Option<u8>
    ensures { result ≡ digit_of character }
{
    let value = char::from(character).to_digit(16)?;
    Some(value as u8)
}

// The octet of two digits.
fn pair(high: u8, low: u8) -> Option<u8>
    ensures { result ≡ octet_of high low }
{
    Some(16 * digit(high)? + digit(low)?)
}

// The octet of a word of exactly two digits.
pub fn octet(word: &[u8]) -> Option<u8>
    ensures { result ≡ lone_octet word.now }
{
    match word {
        [high, low] => pair(*high, *low),
        _ => None,
    }
}

// The octets of a word of two digits each, where it has that form.
pub fn octets(heap: Global, word: &[u8]) -> Result<Option<Vec<u8>>, AllocError>
    ensures { IfOk result (λ read. option_map (λ v. v.items) read ≡ octets_of word.now) }
{
    let mut found = Vec::new(heap);
    let mut rest = word;
    while let [high, low, after @ ..] = rest {
        let Some(octet) = pair(*high, *low) else {
            return Ok(None);
        };
        found.push(octet)?;
        rest = after;
    }
    Ok(rest.is_empty().then_some(found))
}

// The capital digit of a value below 16.
fn capital_digit(value: u8) -> char
    requires { value < 16 }
    ensures { result ≡ capital value }
{
    if value < 10 {
        char::from(b'0' + value)
    } else {
        char::from(b'A' + (value - 10))
    }
}

// Octets to be printed, two capital digits each.
#[derive(Clone, Copy)]
pub struct Capitals<'a> {
    pub octets: &'a [u8],
}

impl fmt::Display for Capitals<'_> {
    ghost output = { λ c. Some (capitals c.octets.now) };

    fn fmt<W: fmt::Write>(&self, f: &mut fmt::Formatter<W>) -> fmt::Result {
        for octet in self.octets {
            let high = capital_digit(*octet >> 4);
            let low = capital_digit(*octet & 0x0F);
            write!(f, "{high}{low}")?;
        }
        Ok(())
    }
}
