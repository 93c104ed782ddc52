// A string of at most so many octets, held in place.
#![tactic(auto)]

ghost use Rattle.std.specs.Prelude.{◌≡◌, ◌-◌, ◌≤◌, length, drop, replicate};

mod equal;
pub mod methods;

// Up to N octets. The octets behind the last one are zero, so that a string is known by its octets alone, and two strings
// of the same octets are equal.
#[derive(Clone, Copy, Debug)]
pub struct OctetString<const N: usize> {
    count: usize,
    octets: [u8; N],
    ghost short: { count ≤ N },
    ghost full: { length octets ≡ N },
    ghost unused: { drop count octets ≡ replicate (N - count) 0 },
}
