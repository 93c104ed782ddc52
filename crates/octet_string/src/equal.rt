// When two strings of octets are equal.
ghost use Rattle.octet_string.specs.Same.{same_fields, fields_alike, fields_equal};

use crate::OctetString;

// Only the octets that are held are compared: those behind them are zero in both.
impl<const N: usize> PartialEq for OctetString<N> {
    ghost eq = { same_fields };

    ghost laws = { fields_alike };

    fn eq(&self, other: &OctetString<N>) -> bool {
        self.as_slice() == other.as_slice()
    }
}

impl<const N: usize> Eq for OctetString<N> {
    ghost laws = { fields_equal };
}
