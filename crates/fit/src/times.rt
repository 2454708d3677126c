//! Times, in minutes after midnight.
ghost use Rattle.std.specs.Prelude.{◌≡◌};
ghost use Rattle.fit.specs.Times.{late_start};

/// The minutes of a day: the longest that a programme or a slot may be.
pub const DAY: u16 = 1440;

/// The start from which a slot lies in late hours.
const LATE_FROM: u16 = 1260;

/// Whether a slot that starts then lies in late hours: the late rule.
pub fn is_late_start(start: u16) -> bool
    ensures { result ≡ late_start start }
{
    start >= LATE_FROM
}
