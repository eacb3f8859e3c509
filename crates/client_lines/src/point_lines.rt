//! The lines that direct a simulated charge point.

use ocpp_scalars::IdTag;
use sim_point_core::SimStep;
use std::alloc::{AllocError, Global};
use std::str::FromStr;

/// The content of a line for a simulated point.
#[derive(Drop)]
pub enum PointLine {
    /// Make a call of the point's own.
    Step(SimStep),
    /// Wait this many seconds, and answer the messages that come meanwhile.
    Pause(u64),
}

/// The longest pause, a day in seconds.
const MAX_PAUSE: u64 = 86_400;

/// Reads a line: `heartbeat`, `start CONNECTOR TAG METER`, `stop CONNECTOR` or `pause SECONDS`,
/// with blanks between its words. Returns `None` for any other line.
pub fn point_line(alloc: Global, text: &str) -> Result<Option<PointLine>, AllocError> {
    let mut words = text.split_whitespace();
    let line = match words.next() {
        Some("heartbeat") => Some(PointLine::Step(SimStep::Heartbeat)),
        Some("start") => start_step(alloc, words.next(), words.next(), words.next())?,
        Some("stop") => number(words.next()).map(|connector| PointLine::Step(SimStep::Stop {
            connector,
        })),
        Some("pause") => pause(words.next()),
        _ => None,
    };
    match words.next() {
        None => Ok(line),
        Some(_) => Ok(None),
    }
}

/// Reads the words after `start` in a line of `point`'s standard input: the connector, idTag and
/// meter value of the simulated point's StartTransaction.
fn start_step(
    alloc: Global,
    connector: Option<&str>,
    tag: Option<&str>,
    meter: Option<&str>,
) -> Result<Option<PointLine>, AllocError> {
    let (Some(connector), Some(tag), Some(meter)) = (number(connector), tag, number(meter)) else {
        return Ok(None);
    };
    let Some(tag) = IdTag::try_copy(alloc, tag)? else {
        return Ok(None);
    };
    Ok(Some(PointLine::Step(SimStep::Start {
        connector,
        tag,
        meter,
    })))
}

/// Reads the seconds after `pause` in a line of `point`'s standard input. Returns `None` unless
/// they are a number up to MAX_PAUSE.
fn pause(seconds: Option<&str>) -> Option<PointLine> {
    match number(seconds) {
        Some(seconds) if seconds <= MAX_PAUSE => Some(PointLine::Pause(seconds)),
        _ => None,
    }
}

/// Reads a number in a line of `point`'s standard input. Returns `None` if the word is missing or
/// isn't one.
fn number<N: FromStr>(word: Option<&str>) -> Option<N>
where
    N::Err: Drop,
{
    word?.parse().ok()
}
