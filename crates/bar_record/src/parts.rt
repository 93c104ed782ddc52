// The parts of a kept bar, as its record has them.
ghost use Rattle.std.specs.Prelude.{◌≤◌, length};

pub(crate) mod layout;

// The number of the kind, network, slice, name and seconds; a part that the kind's key lacks has no octets.
#[derive(Clone, Copy)]
pub(crate) struct Parts<'a> {
    kind: u8,
    network: &'a [u8],
    slice: &'a [u8],
    name: &'a [u8],
    seconds: u32,
    ghost slice_fits: { length slice.now ≤ 8 },
    ghost name_fits: { length name.now ≤ 100 },
}
