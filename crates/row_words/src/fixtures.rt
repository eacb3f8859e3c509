//! Test data: instants, profiles and their rows in words, starts of transactions, site files.
//! Tables in words are data, of which nothing has to be proved.

use crate::words::{KeyedWords, instant_of};
use ocpp_scalars::{IdTag, Instant, Refusal};
use profile::{
    Criteria, Period, PeriodList, Profile, ProfileKind, ProfileParts, Purpose, Row, ScheduleParts,
    Unit,
};
use std::alloc::{AllocError, AllocFailed, Global};
use std::fmt;
use transactions::Begin;

/// An idTag of the maximum length, in characters of four bytes.
// An idTag has at most 20 characters, and UTF-8 needs at most four bytes for each.
pub const LONGEST_TAG: &str = "🔌🔌🔌🔌🔌🔌🔌🔌🔌🔌🔌🔌🔌🔌🔌🔌🔌🔌🔌🔌";

/// The reason why words can't be turned into a value.
#[derive(Clone, Copy, Debug, PartialEq, Eq)]
pub enum UnreadWords {
    /// The words can't be read.
    Words,
    /// They describe no well-formed profile.
    Refused(Refusal),
    /// Memory ran out.
    OutOfMemory,
}

impl From<AllocError> for UnreadWords {
    fn from(_error: AllocError) -> UnreadWords {
        UnreadWords::OutOfMemory
    }
}

impl<T: Drop> From<AllocFailed<T>> for UnreadWords {
    fn from(_failed: AllocFailed<T>) -> UnreadWords {
        UnreadWords::OutOfMemory
    }
}

/// A write to a text in memory fails only if memory runs out.
impl From<fmt::Error> for UnreadWords {
    fn from(_error: fmt::Error) -> UnreadWords {
        UnreadWords::OutOfMemory
    }
}

/// Returns the instant a number of seconds after midnight.
pub fn instant_at(second: u64) -> Result<Instant, UnreadWords> {
    instant_of(second).ok_or(UnreadWords::Words)
}

/// Reads criteria: `id=`, `connector=`, `purpose=`, `level=`. An absent key gives no criterion.
pub fn criteria_of(words: &str) -> Result<Criteria, UnreadWords> {
    let mut keyed = KeyedWords::of(words);
    let criteria = Criteria {
        id: keyed.whole("id="),
        connector: keyed.number("connector="),
        purpose: keyed.name("purpose="),
        stack_level: keyed.number("level="),
    };
    if keyed.is_read() {
        Ok(criteria)
    } else {
        Err(UnreadWords::Words)
    }
}

/// Makes a period of a test's charging profile, of a limit in tenths from a second on.
fn period(start: u32, limit: u32) -> Period {
    Period {
        start,
        limit,
        number_phases: None,
    }
}

/// Reads a period of a test's charging profile, such as `3600:80`: its start and its limit.
fn period_of_word(word: &str) -> Option<Period> {
    let (start, limit) = word.split_once(':')?;
    let start = start.parse::<u32>().ok()?;
    let limit = limit.parse::<u32>().ok()?;
    Some(period(start, limit))
}

/// Reads the periods of a test's charging profile, from the value of `periods=0:160,3600:80`.
fn periods_of_words(alloc: Global, keyed: &str) -> Result<Vec<Period>, UnreadWords> {
    let mut periods = Vec::new(alloc);
    for word in keyed.split(',') {
        match period_of_word(word) {
            Some(period) => periods.push(period)?,
            None => return Err(UnreadWords::Words),
        }
    }
    Ok(periods)
}

/// Returns the 200 periods of a test's charging profile, of a number of seconds each, alternating
/// between 6 A and 10 A.
fn periods_by_turns(alloc: Global, seconds: u32) -> Result<Vec<Period>, UnreadWords> {
    let mut periods = Vec::new(alloc);
    for index in 0..200u32 {
        let limit = if index % 2 == 0 { 60 } else { 100 };
        periods.push(period(seconds.saturating_mul(index), limit))?;
    }
    Ok(periods)
}

/// Reads the periods of a test's charging profile by `turns=` or `periods=`. Without either it has
/// one of 16 A.
fn period_list(alloc: Global, keyed: &mut KeyedWords<'_>) -> Result<PeriodList, UnreadWords> {
    let periods = match keyed.number("turns=") {
        Some(seconds) => periods_by_turns(alloc, seconds),
        None => periods_of_words(alloc, keyed.value("periods=").unwrap_or("0:160")),
    };
    PeriodList::try_new(periods?)?.ok_or(UnreadWords::Words)
}

/// Reads the fields of a test's charging profile from words such as `id=1`, with the defaults of
/// `profile_of`.
fn parts_of(keyed: &mut KeyedWords<'_>, periods: PeriodList) -> ProfileParts {
    let schedule = ScheduleParts {
        duration: keyed.number("duration="),
        start: keyed.instant("start="),
        unit: keyed.name("unit=").unwrap_or(Unit::A),
        periods,
        min_charging_rate: None,
    };
    ProfileParts {
        id: keyed.whole("id=").unwrap_or(1),
        transaction: keyed.whole("transaction="),
        stack_level: keyed.number("level=").unwrap_or(0),
        purpose: keyed.name("purpose=").unwrap_or(Purpose::TxDefaultProfile),
        kind: keyed.name("kind=").unwrap_or(ProfileKind::Absolute),
        recurrency: keyed.name("recurrency="),
        valid_from: keyed.instant("from="),
        valid_to: keyed.instant("to="),
        schedule,
    }
}

/// Reads a test's charging profile from words such as `id=1 level=3`, or returns why there is none.
fn keyed_profile(alloc: Global, keyed: &mut KeyedWords<'_>) -> Result<Profile, UnreadWords> {
    let periods = period_list(alloc, keyed)?;
    let parts = parts_of(keyed, periods);
    if !keyed.is_read() {
        return Err(UnreadWords::Words);
    }
    match Profile::try_new(parts) {
        Ok(profile) => Ok(profile),
        Err((refusal, _)) => Err(UnreadWords::Refused(refusal)),
    }
}

/// Reads a profile: `id=`, `purpose=`, `level=`, `transaction=`, `kind=`, `recurrency=`, `from=`
/// and `to=` (its validity), `duration=`, `start=`, `unit=`, and `periods=0:160,3600:80` or
/// `turns=432`: 200 periods of a number of seconds, alternating between 6 A and 10 A. Instants
/// count from midnight. By default it is an Absolute TxDefaultProfile of 16 A without a start, of
/// id 1 and level 0.
pub fn profile_of(alloc: Global, words: &str) -> Result<Profile, UnreadWords> {
    keyed_profile(alloc, &mut KeyedWords::of(words))
}

/// Reads the row of a profile, with `connector=` and `moment=`: by default the whole point, and
/// midnight.
pub fn row_of(alloc: Global, words: &str) -> Result<Row, UnreadWords> {
    let midnight = instant_at(0)?;
    let mut keyed = KeyedWords::of(words);
    let connector = keyed.number("connector=").unwrap_or(0);
    let moment = keyed.instant("moment=").unwrap_or(midnight);
    Ok(Row {
        connector,
        moment,
        profile: keyed_profile(alloc, &mut keyed)?,
    })
}

/// Returns a start by an idTag, a number of seconds after midnight.
pub fn begin_of(
    alloc: Global,
    tag: &str,
    meter_start: i32,
    second: u64,
) -> Result<Begin, UnreadWords> {
    let timestamp = instant_at(second)?;
    match IdTag::try_new(String::from_str(alloc, tag)?) {
        Ok(id_tag) => Ok(Begin {
            id_tag,
            meter_start,
            timestamp,
        }),
        Err(_) => Err(UnreadWords::Words),
    }
}

/// Returns the limits of a number of connectors of 32 A, as they are in a test's site file.
fn limits_text(alloc: Global, connectors: usize) -> Result<String, UnreadWords> {
    let mut text = String::from_str(alloc, "32")?;
    for _ in 1..connectors {
        text.push_str(",32")?;
    }
    Ok(text)
}

/// Returns a site file of a number of points of 1,000 A, each with a number of connectors of 32 A.
/// A point's identity is its place, zero-padded to a number of characters.
pub fn site_text(
    alloc: Global,
    points: usize,
    connectors: usize,
    width: usize,
) -> Result<String, UnreadWords> {
    let limits = limits_text(alloc, connectors)?;
    let mut text = String::from_str(alloc, r#"{"unit":"A","points":["#)?;
    for place in 0..points {
        let comma = if place > 0 { "," } else { "" };
        write!(
            &mut text,
            r#"{comma}{{"id":"{place:0>width$}","ceiling":1000,"connectors":[{limits}]}}"#
        )?;
    }
    text.push_str("]}")?;
    Ok(text)
}
