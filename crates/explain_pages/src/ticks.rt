//! The distance between the ticks of an axis.

ghost use Rattle.std.specs.Prelude.{◌*◌, ◌≤◌, IfSome};
ghost use Rattle.meaning.specs.Limits.{max_duration};

/// The possible distances between two ticks of the time axis up to two days, in seconds.
const TIME_STEPS: [u32; 20] = [
    1, 2, 5, 10, 15, 30, 60, 120, 300, 600, 900, 1800, 3600, 7200, 10_800, 14_400, 21_600, 43_200,
    86_400, 172_800,
];

/// The possible distances between two dates of the time axis up to two days, in seconds.
const DATE_STEPS: [u32; 2] = [86_400, 172_800];

/// The possible distances between two ticks of the limit axis, in tenths of A or W.
const LIMIT_STEPS: [u32; 29] = [
    1,
    2,
    5,
    10,
    20,
    50,
    100,
    200,
    500,
    1_000,
    2_000,
    5_000,
    10_000,
    20_000,
    50_000,
    100_000,
    200_000,
    500_000,
    1_000_000,
    2_000_000,
    5_000_000,
    10_000_000,
    20_000_000,
    50_000_000,
    100_000_000,
    200_000_000,
    500_000_000,
    1_000_000_000,
    2_000_000_000,
];

/// The maximum number of spaces between the ticks of the time axis, between its dates, and between
/// the ticks of the limit axis.
pub(crate) const MOST_TIMES: u32 = 12;

pub(crate) const MOST_DATES: u32 = 8;

pub(crate) const MOST_LIMITS: u32 = 6;

/// Returns the seconds between the ticks of the time axis in `explain`'s picture: the fewest that
/// make at most 12 spaces, or else four days.
pub(crate) fn time_step(duration: u32) -> u32
    requires asked { duration ≤ max_duration }
    ensures spans { duration ≤ result * 12 }
{
    // A request has at most 31 days: only one of more than 24 needs ticks four days apart.
    first_that_spans(&TIME_STEPS, duration, MOST_TIMES).unwrap_or(345_600)
}

/// Returns the seconds between the dates of the time axis in `explain`'s picture: the fewest that
/// make at most 8 spaces, or else four days.
pub(crate) fn date_step(duration: u32) -> u32
    requires asked { duration ≤ max_duration }
    ensures spans { duration ≤ result * 8 }
{
    first_that_spans(&DATE_STEPS, duration, MOST_DATES).unwrap_or(345_600)
}

/// Returns the tenths between the ticks of the limit axis in `explain`'s picture. They are the
/// fewest that make at most 6 spaces up to the largest limit.
pub(crate) fn limit_step(largest: u32) -> u32
    ensures spans { largest ≤ result * 6 }
{
    first_that_spans(&LIMIT_STEPS, largest, MOST_LIMITS).unwrap_or(2_000_000_000)
}

/// Returns the first of the steps that covers `wanted` when it is repeated `count` times. It is the
/// distance between ticks of an axis in `explain`'s picture.
fn first_that_spans(steps: &[u32], wanted: u32, count: u32) -> Option<u32>
    ensures spans { IfSome result (λ step. wanted ≤ step * count) }
{
    steps
        .iter()
        .copied()
        .find(|step| wanted <= step.saturating_mul(count))
}
