// The script of the bench, as text: words, hexadecimal octets and decimal numbers.
#![tactic(auto)]

pub mod hex;
pub mod number;
pub mod text;

#[cfg(test)]
mod tests {
    use crate::hex::{Capitals, octet, octets};
    use crate::number::number;
    use crate::text::word;
    use std::test::Fail;

    #[test]
    fn words_of_a_line(rt: HostRuntime) {
        let line = b" octet\t A5  ";
        assert!(rt; word(line, 0) == b"octet".as_slice());
        assert!(rt; word(line, 1) == b"A5".as_slice());
        assert!(rt; word(line, 2).is_empty());
    }

    #[test]
    fn hexadecimal_in_either_case(rt: HostRuntime) -> Result<(), Fail> {
        assert_eq!(rt; octet(b"aF"), Some(0xAF));
        assert_eq!(rt; octet(b"A"), None);
        assert_eq!(rt; octet(b"G0"), None);
        let read = octets(rt.alloc(), b"7e00Fe")?.ok_or("octets")?;
        assert!(rt; read.as_slice() == b"\x7E\x00\xFE".as_slice());
        let shown = format!(in rt.alloc();
            "{}",
            Capitals {
                octets: read.as_slice()
            }
        )?;
        assert!(rt; shown.as_str() == "7E00FE");
        assert!(rt; matches!(octets(rt.alloc(), b"7E0"), Ok(None)));
        Ok(())
    }

    #[test]
    fn numbers_that_fit(rt: HostRuntime) {
        assert_eq!(rt; number(b"0035712000"), Some(35_712_000));
        assert_eq!(rt; number(b"4294967295"), Some(4_294_967_295));
        assert_eq!(rt; number(b"4294967296"), None);
        assert_eq!(rt; number(b""), None);
        assert_eq!(rt; number(b"12a"), None);
    }
}
