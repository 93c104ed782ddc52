// The timer octet of TS 24.008 clause 10.5.7.4a: three bits of unit and five bits of value.
ghost use Rattle.std.specs.Prelude.{◌≡◌, ℕ, ◌/◌, ◌%◌, true};
ghost use Rattle.backoff.specs.Octet.{unit_number, unit_of, unit_seconds, timed, reading, rounded, shown};
ghost use Rattle.backoff.specs.Laws.{Shows};

// The unit of a timer octet, with the three bits that name it.
#[derive(Clone, Copy, PartialEq, Eq, Debug)]
pub enum TimerUnit {
    TenMinutes = 0,
    OneHour = 1,
    TenHours = 2,
    TwoSeconds = 3,
    ThirtySeconds = 4,
    OneMinute = 5,
    ThreeHundredTwentyHours = 6,
    Deactivated = 7,
}

// What a timer octet says: zero stops the timer, a number of seconds starts it, and
// a deactivated timer forbids with no end of its own.
#[derive(Clone, Copy, PartialEq, Eq, Debug)]
pub enum TimerValue {
    Zero,
    Seconds(u32),
    Deactivated,
}

// Why a number of seconds cannot be shown: there are none, or 31 of the longest unit are too few.
#[derive(Clone, Copy, PartialEq, Eq, Debug)]
pub enum ShowRefusal {
    NoSeconds,
    TooLong,
}

impl TimerUnit {
    // The three bits of the unit.
    pub fn number(self) -> u8
        ensures { result ≡ unit_number self }
    {
        self as u8
    }

    // The seconds of one step of the unit; a deactivated timer has no steps.
    pub fn seconds(self) -> u32
        ensures { result ≡ unit_seconds self }
    {
        match self {
            TimerUnit::TenMinutes => 600,
            TimerUnit::OneHour => 3_600,
            TimerUnit::TenHours => 36_000,
            TimerUnit::TwoSeconds => 2,
            TimerUnit::ThirtySeconds => 30,
            TimerUnit::OneMinute => 60,
            TimerUnit::ThreeHundredTwentyHours => 1_152_000,
            TimerUnit::Deactivated => 0,
        }
    }
}

// The unit that the high three bits of an octet name.
fn unit_of(octet: u8) -> TimerUnit
    ensures { result ≡ unit_of (octet / 32) }
{
    match octet >> 5 {
        0 => TimerUnit::TenMinutes,
        1 => TimerUnit::OneHour,
        2 => TimerUnit::TenHours,
        3 => TimerUnit::TwoSeconds,
        4 => TimerUnit::ThirtySeconds,
        5 => TimerUnit::OneMinute,
        6 => TimerUnit::ThreeHundredTwentyHours,
        _ => TimerUnit::Deactivated,
    }
}

// The two parts of a timer octet, told together: the unit and the value.
pub fn split(octet: u8) -> (TimerUnit, u8)
    ensures unit { result.0 ≡ unit_of (octet / 32) }
    ensures value { result.1 ≡ octet % 32 }
{
    (unit_of(octet), octet % 32)
}

// What a received timer octet says.
pub fn read(octet: u8) -> TimerValue
    ensures { result ≡ reading octet }
{
    let (unit, value) = split(octet);
    match (unit, value) {
        (TimerUnit::Deactivated, _) => TimerValue::Deactivated,
        (_, 0) => TimerValue::Zero,
        _ => TimerValue::Seconds(unit.seconds() * u32::from(value)),
    }
}

// The value of a time in a unit, rounded up.
fn rounded_up(seconds: u32, unit: TimerUnit) -> u64
    requires { timed unit ≡ true }
    ensures { result ≡ rounded seconds unit }
{
    u64::from(seconds).div_ceil(u64::from(unit.seconds()))
}

// The octet that shows the seconds left of a running timer: in the shortest unit whose value, rounded up, takes five
// bits. It refuses outside 1 to 35,712,000 seconds.
pub fn show(seconds: u32) -> Result<u8, ShowRefusal>
    ensures octet { result ≡ shown seconds }
    ensures law { Shows seconds result }
{
    if seconds == 0 {
        return Err(ShowRefusal::NoSeconds);
    }
    let units = [
        TimerUnit::TwoSeconds,
        TimerUnit::ThirtySeconds,
        TimerUnit::OneMinute,
        TimerUnit::TenMinutes,
        TimerUnit::OneHour,
        TimerUnit::TenHours,
        TimerUnit::ThreeHundredTwentyHours,
    ];
    for unit in units {
        let value = rounded_up(seconds, unit);
        if value <= 31 {
            return Ok(32 * unit.number() + value as u8);
        }
    }
    Err(ShowRefusal::TooLong)
}
