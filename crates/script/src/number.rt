// Decimal numbers.
ghost use Rattle.std.specs.Prelude.{◌≡◌};
ghost use Rattle.script.specs.Number.{extended, numeral};

// A number with one more decimal digit behind it, where it stays below 2^32.
fn with_digit(value: u32, character: u8) -> Option<u32>
    ensures { result ≡ extended value character }
{
    let digit = char::from(character).to_digit(10)?;
    value.checked_mul(10)?.checked_add(digit)
}

// The number of a word of decimal digits, where it is below 2^32.
pub fn number(word: &[u8]) -> Option<u32>
    ensures { result ≡ numeral word.now }
{
    if word.is_empty() {
        return None;
    }
    let mut value = 0;
    for character in word {
        value = with_digit(value, *character)?;
    }
    Some(value)
}
