//! The JSON of an explained schedule (RFC 8259), for programs.

use crate::explained_request::{ExplainedRequest, NotCounted};
use crate::known_profile::{KnownProfile, known_cause};
use crate::words::{reason_name, sentence};
use meaning::{Cause, PrevailingProfile, Share};
use messages::{purpose_name, unit_name};
use ocpp_scalars::Instant;
use page_text::JsonPage;
use std::alloc::{AllocError, Global};
use sweep_compiler::Interval;

/// Formats an explained schedule as one line of JSON: `point`, `connector`, `unit`, `start`,
/// `duration` in seconds, `intervals`, each with `start`, `end`, `limit`, `cause` and `shares`, and
/// `notCounted`. Limits have one decimal, and instants are strings (RFC 3339). An `end` after the
/// last instant is null. The cause of a known profile has its `state` at the point, and `since`
/// when.
pub fn write_json(alloc: Global, explained: &ExplainedRequest<'_>) -> Result<String, AllocError> {
    let mut line = JsonPage::new(alloc);
    line.begin_object();
    push_asked(&mut line, explained);
    line.array("intervals");
    for interval in explained.intervals {
        push_interval(&mut line, explained, interval);
    }
    line.end_array();
    line.array("notCounted");
    for one in explained.not_counted {
        push_not_counted(&mut line, one);
    }
    line.end_array();
    line.end_object();
    line.finish_line()
}

/// Appends the fields of the request to the JSON of `explain --json`: point, connector, unit, start
/// and duration.
fn push_asked(line: &mut JsonPage, explained: &ExplainedRequest<'_>) {
    line.text("point", explained.point);
    line.number("connector", u64::from(explained.ask.connector));
    line.text("unit", unit_name(explained.unit));
    line.instant("start", Instant::try_new(explained.moment(0)));
    line.number("duration", u64::from(explained.ask.duration));
}

/// Appends an interval of an explained schedule to the JSON of `explain --json`, with its limit,
/// its cause and its shares.
fn push_interval(line: &mut JsonPage, explained: &ExplainedRequest<'_>, interval: &Interval) {
    let known = explained.known;
    line.begin_object();
    // A moment after the last instant becomes null.
    line.instant("start", Instant::try_new(explained.moment(interval.start)));
    line.instant("end", Instant::try_new(explained.moment(interval.end)));
    push_limit(line, interval.reason.limit, interval.reason.cause, known);
    line.array("shares");
    for share in interval.reason.shares.as_slice() {
        push_share(line, share, known);
    }
    line.end_array();
    line.end_object();
}

/// Appends a connector's share of a summed limit to the JSON of `explain --json`.
fn push_share(line: &mut JsonPage, share: &Share, known: &[KnownProfile<'_>]) {
    line.begin_object();
    line.number("connector", u64::from(share.connector));
    push_limit(line, share.limit, share.cause, known);
    line.end_object();
}

/// Appends the fields `limit` and `cause` of an interval or a share to the JSON of `explain
/// --json`.
fn push_limit(line: &mut JsonPage, limit: u32, cause: Cause, known: &[KnownProfile<'_>]) {
    line.tenths("limit", limit);
    line.object("cause");
    match cause {
        Cause::Profile(profile) => {
            line.text("kind", "Profile");
            push_profile(line, profile);
            if let Some(found) = known_cause(known, cause) {
                line.text("state", found.state);
                line.instant("since", Some(found.since));
            }
        }
        Cause::ConnectorCeiling => line.text("kind", "ConnectorCeiling"),
        Cause::PointCeiling => line.text("kind", "PointCeiling"),
        Cause::Sum => line.text("kind", "Sum"),
    }
    line.end_object();
}

/// Appends the fields that identify a charging profile to the JSON of `explain --json`.
fn push_profile(line: &mut JsonPage, profile: PrevailingProfile) {
    line.integer("chargingProfileId", profile.id);
    line.text("purpose", purpose_name(profile.purpose));
    line.number("stackLevel", u64::from(profile.stack_level));
    line.number("connector", u64::from(profile.connector));
}

/// Appends a profile that never sets the limit, with the reason, to the JSON of `explain --json`.
fn push_not_counted(line: &mut JsonPage, one: &NotCounted) {
    line.begin_object();
    push_profile(line, one.profile);
    line.text("reason", reason_name(one.reason));
    line.text("sentence", sentence(one.reason));
    line.end_object();
}
