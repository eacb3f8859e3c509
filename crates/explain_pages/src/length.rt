//! Lengths of time in days, hours, minutes and seconds.

ghost use Rattle.std.specs.Prelude.{◌≡◌, ◌+◌, ◌*◌, ◌<◌};

/// A length of time.
#[derive(Clone, Copy, PartialEq, Eq)]
pub struct Length {
    pub days: u32,
    pub hours: u32,
    pub minutes: u32,
    pub seconds: u32,
}

/// Splits a number of seconds into days, hours, minutes and seconds.
pub fn length_of(seconds: u32) -> Length
    ensures whole { result.days * 86400 + result.hours * 3600 + result.minutes * 60 + result.seconds
        ≡ seconds }
    ensures hours { result.hours < 24 }
    ensures minutes { result.minutes < 60 }
    ensures seconds { result.seconds < 60 }
{
    let (days, rest) = (seconds / 86_400, seconds % 86_400);
    let (hours, rest) = (rest / 3600, rest % 3600);
    Length {
        days,
        hours,
        minutes: rest / 60,
        seconds: rest % 60,
    }
}
