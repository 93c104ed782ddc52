// The calls of a script.

// A call with its arguments, or a look at the timers.
#[derive(Clone, Copy)]
pub enum Call<'a> {
    SwitchOff,
    // The card of 8 octets, the network of 3, the first reading, and the seconds spent switched off, if they are known.
    SwitchOn(&'a [u8], &'a [u8], u32, Option<u32>),
    // The identity, the request type, and slice and name if present.
    Establish(u8, u8, Option<&'a [u8]>, Option<&'a [u8]>),
    Modify(u8),
    Release(u8),
    TakeIn(&'a [u8]),
    TimeReading(u32),
    // The network of 3 octets.
    ChangeNetwork(&'a [u8]),
    // The octets that the network's place has.
    NetworkTake(u32),
    // The timers on the keys of a slice and a name: no call of the life, since it alters nothing.
    Look(Option<&'a [u8]>, Option<&'a [u8]>),
}
