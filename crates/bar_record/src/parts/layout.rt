// The record of a bar, octet by octet.
ghost use Rattle.std.specs.Prelude.{◌≡◌, ◌<◌, slice_index};
ghost use Rattle.bar_record.specs.Record.{kept_view, seconds_octet, octet_at, written};
ghost use Rattle.bar_record.specs.Views.{parts_view};

use super::Parts;
use crate::kept::{KeptBar, KeptKey, RECORD_LENGTH};

// The octet at a place, or zero behind the last.
fn octet_or_zero(octets: &[u8], i: usize) -> u8
    ensures { result ≡ slice_index octets.now i }
{
    octets.get(i).copied().unwrap_or(0)
}

// The octets of the seconds, the high one first.
fn octet_of_seconds(seconds: u32, i: usize) -> u8
    ensures { result ≡ seconds_octet seconds i }
{
    match i {
        0 => (seconds / 16_777_216) as u8,
        1 => (seconds / 65_536 % 256) as u8,
        2 => (seconds / 256 % 256) as u8,
        _ => (seconds % 256) as u8,
    }
}

impl Parts<'_> {
    // The octet of the record with a number.
    fn octet(&self, i: usize) -> u8
        ensures { result ≡ octet_at (parts_view self.now) i }
    {
        match i {
            0 => self.kind,
            1..=3 => octet_or_zero(self.network, i - 1),
            4 => self.slice.len() as u8,
            5..=12 => octet_or_zero(self.slice, i - 5),
            13 => self.name.len() as u8,
            14..=113 => octet_or_zero(self.name, i - 14),
            114..=117 => octet_of_seconds(self.seconds, i - 114),
            _ => 0,
        }
    }

    // The 128 octets of the record.
    pub(crate) fn record(&self) -> [u8; RECORD_LENGTH]
        ensures { result ≡ written (parts_view self.now) }
    {
        let mut record = [0; RECORD_LENGTH];
        for (i, octet) in record.iter_mut().enumerate() {
            *octet = self.octet(i);
        }
        record
    }
}

impl KeptBar {
    // The parts of the bar.
    pub(crate) fn parts(&self) -> Parts<'_>
        ensures { parts_view result ≡ kept_view self.now }
    {
        let seconds = self.seconds;
        match &self.key {
            KeptKey::T3396(key) => Parts {
                kind: 1,
                network: &[],
                slice: &[],
                name: key.name.octets(),
                seconds,
            },
            KeptKey::T3584(key) => Parts {
                kind: 2,
                network: key.network.octets(),
                slice: key.slice.octets(),
                name: key.name.octets(),
                seconds,
            },
            KeptKey::T3585(key) => Parts {
                kind: 3,
                network: key.network.octets(),
                slice: key.slice.octets(),
                name: &[],
                seconds,
            },
        }
    }
}
