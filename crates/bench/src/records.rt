// Kept records told in words.
use bar_record::kept::{KeptBar, KeptKey};
use bar_record::read::read;
use script::hex::Capitals;
use std::io::Write;
use std::{fmt, io};

// A part of a key; `-` where it is absent.
#[derive(Clone, Copy)]
struct Part<'a> {
    octets: &'a [u8],
}

impl fmt::Display for Part<'_> {
    fn fmt<W: fmt::Write>(&self, f: &mut fmt::Formatter<W>) -> fmt::Result {
        if self.octets.is_empty() {
            return write!(f, "-");
        }
        let digits = Capitals {
            octets: self.octets,
        };
        write!(f, "{digits}")
    }
}

// The octets of a part, to be printed.
fn shown(octets: &[u8]) -> Part<'_> {
    Part { octets }
}

// A kept bar, by the timer of its kind, its key and its seconds left.
#[derive(Clone, Copy)]
struct KeptWords {
    bar: KeptBar,
}

impl fmt::Display for KeptWords {
    fn fmt<W: fmt::Write>(&self, f: &mut fmt::Formatter<W>) -> fmt::Result {
        let seconds = self.bar.seconds;
        match &self.bar.key {
            KeptKey::T3396(key) => {
                let name = shown(key.name.octets());
                write!(f, "T3396 name {name}")?;
            }
            KeptKey::T3584(key) => {
                let network = shown(key.network.octets());
                let slice = shown(key.slice.octets());
                let name = shown(key.name.octets());
                write!(f, "T3584 network {network} slice {slice} name {name}")?;
            }
            KeptKey::T3585(key) => {
                let network = shown(key.network.octets());
                let slice = shown(key.slice.octets());
                write!(f, "T3585 network {network} slice {slice}")?;
            }
        }
        write!(f, " running {seconds} s")
    }
}

// Tells a kept record of 128 octets.
pub fn tell_record(out: &mut impl Write, octets: &[u8]) -> io::Result<()> {
    match read(octets) {
        Some(bar) => {
            let told = KeptWords { bar };
            writeln!(out, " -> {told}")
        }
        None => writeln!(out, " -> not lawful"),
    }
}
