//! The metrics of a site for Prometheus (text format 0.0.4).

use crate::health::Health;
use crate::point_summary::{CallSummary, PointSummary, calls_of_points, summary_at};
use crate::site_report::SiteReport;
use messages::AuditOutcome;
use ocpp_scalars::Instant;
use std::alloc::{AllocError, Global};

/// Microseconds in a second.
const MILLION: u64 = 1_000_000;

/// Formats the metrics of a site: each family with its help and its type, and then its samples.
pub fn metrics_text(alloc: Global, report: &SiteReport<'_>) -> Result<String, AllocError> {
    let mut out = String::new(alloc);
    for figure in SITE_FIGURES {
        push_head(&mut out, figure.name(), figure.help(), figure.is_counter())?;
        figure.push_samples(&mut out, report)?;
    }
    // Each metric below goes over all points, so their calls are summed up once.
    let calls = calls_of_points(alloc, report)?;
    // The format wants the samples of a family together, so metrics are the outer loop.
    for figure in POINT_FIGURES {
        push_head(&mut out, figure.name(), figure.help(), figure.is_counter())?;
        for (place, calls) in calls.iter().enumerate() {
            push_of_point(&mut out, figure, report, place, *calls)?;
        }
    }
    Ok(out)
}

/// Appends the sample of the status port's Prometheus metric for the charge point at this place of
/// the site file, if it has one.
fn push_of_point(
    out: &mut String,
    figure: PointFigure,
    report: &SiteReport<'_>,
    place: usize,
    calls: CallSummary,
) -> Result<(), AllocError> {
    let Some(point) = summary_at(report, place, calls) else {
        return Ok(());
    };
    match figure.value(&point, report.moment) {
        Some(value) => push_sample(out, figure.name(), "point", point.id, value),
        None => Ok(()),
    }
}

/// Appends the head of a Prometheus metric family of the status port: its help and its type.
fn push_head(out: &mut String, name: &str, help: &str, is_counter: bool) -> Result<(), AllocError> {
    let kind = if is_counter { "counter" } else { "gauge" };
    write!(out, "# HELP {name} {help}\n# TYPE {name} {kind}\n")
}

/// Appends a sample with one label of a Prometheus metric of the status port.
fn push_sample(
    out: &mut String,
    name: &str,
    label: &str,
    text: &str,
    value: u64,
) -> Result<(), AllocError> {
    write!(out, "{name}{{{label}=\"")?;
    push_label(out, text)?;
    write!(out, "\"}} {value}\n")
}

/// Appends the value of a label in the status port's Prometheus metrics, with backslash, quote and
/// line feed escaped.
fn push_label(out: &mut String, text: &str) -> Result<(), AllocError> {
    for character in text.chars() {
        match character {
            // The format escapes these three characters in a label's value, and no others.
            '\\' => out.push_str("\\\\")?,
            '"' => out.push_str("\\\"")?,
            '\n' => out.push_str("\\n")?,
            _ => out.push(character)?,
        }
    }
    Ok(())
}

/// A metric of the whole site.
#[derive(Clone, Copy)]
enum SiteFigure {
    Healthy,
    Sessions,
    Seats,
    FreeSeats,
    Changes,
    Answers,
    RefusedHandshakes,
    TurnedAway,
    JournalBytes,
    Syncs,
    SyncSeconds,
}

const SITE_FIGURES: [SiteFigure; 11] = [
    SiteFigure::Healthy,
    SiteFigure::Sessions,
    SiteFigure::Seats,
    SiteFigure::FreeSeats,
    SiteFigure::Changes,
    SiteFigure::Answers,
    SiteFigure::RefusedHandshakes,
    SiteFigure::TurnedAway,
    SiteFigure::JournalBytes,
    SiteFigure::Syncs,
    SiteFigure::SyncSeconds,
];

impl SiteFigure {
    /// Returns the name of the site's metric on the status port, as Prometheus reads it.
    fn name(self) -> &'static str {
        match self {
            SiteFigure::Healthy => "central_healthy",
            SiteFigure::Sessions => "central_sessions",
            SiteFigure::Seats => "central_seats",
            SiteFigure::FreeSeats => "central_seats_free",
            SiteFigure::Changes => "central_changes_total",
            SiteFigure::Answers => "central_answers_total",
            SiteFigure::RefusedHandshakes => "central_handshakes_refused_total",
            SiteFigure::TurnedAway => "central_connections_turned_away_total",
            SiteFigure::JournalBytes => "central_journal_bytes",
            SiteFigure::Syncs => "central_journal_syncs_total",
            SiteFigure::SyncSeconds => "central_journal_sync_seconds_total",
        }
    }

    /// Returns the help text of the site's metric on the status port for Prometheus.
    fn help(self) -> &'static str {
        match self {
            SiteFigure::Healthy => "1 if changes are kept, 0 if /health answers 503.",
            SiteFigure::Sessions => "Sessions at present.",
            SiteFigure::Seats => "Most connections served at a time.",
            SiteFigure::FreeSeats => "Further connections that could be served now.",
            SiteFigure::Changes => {
                "Changes of points' profiles and transactions, including restored ones."
            }
            SiteFigure::Answers => "Answered requests for schedules.",
            SiteFigure::RefusedHandshakes =>
                "Connections refused at the handshake, or for an unknown point.",
            SiteFigure::TurnedAway => "Connections turned away because no seat was free.",
            SiteFigure::JournalBytes => "Bytes of the journal that are on the disk.",
            SiteFigure::Syncs => "Writes and syncs of the journal.",
            SiteFigure::SyncSeconds => "Total seconds spent writing and syncing the journal.",
        }
    }

    /// Returns whether the site's metric on the status port is a counter for Prometheus, rather
    /// than a gauge.
    fn is_counter(self) -> bool {
        match self {
            SiteFigure::Healthy
            | SiteFigure::Sessions
            | SiteFigure::Seats
            | SiteFigure::FreeSeats
            | SiteFigure::JournalBytes => false,
            SiteFigure::Changes
            | SiteFigure::Answers
            | SiteFigure::RefusedHandshakes
            | SiteFigure::TurnedAway
            | SiteFigure::Syncs
            | SiteFigure::SyncSeconds => true,
        }
    }

    /// Appends the samples of the site's metric on the status port with their values in the report,
    /// for Prometheus.
    fn push_samples(self, out: &mut String, report: &SiteReport<'_>) -> Result<(), AllocError> {
        let name = self.name();
        let value = match self {
            SiteFigure::Sessions => {
                push_sample(out, name, "kind", "point", report.counts.point_sessions)?;
                return push_sample(
                    out,
                    name,
                    "kind",
                    "operator",
                    report.counts.operator_sessions,
                );
            }
            SiteFigure::SyncSeconds => {
                return push_seconds(out, name, report.journal.sync_microseconds);
            }
            SiteFigure::Healthy => healthy(report),
            SiteFigure::Seats => report.counts.seats,
            SiteFigure::FreeSeats => report.counts.free_seats,
            SiteFigure::Changes => report.counts.changes,
            SiteFigure::Answers => report.counts.answers,
            SiteFigure::RefusedHandshakes => report.counts.refused_handshakes,
            SiteFigure::TurnedAway => report.counts.turned_away,
            SiteFigure::JournalBytes => report.journal.bytes,
            SiteFigure::Syncs => report.journal.syncs,
        };
        write!(out, "{name} {value}\n")
    }
}

/// Returns the value of the site's metric of health on the status port for Prometheus: 1 if changes
/// are kept, or else 0.
fn healthy(report: &SiteReport<'_>) -> u64 {
    match Health::of(Some(report.journal.state)) {
        Health::Well => 1,
        _ => 0,
    }
}

/// Appends a sample of a Prometheus metric of the status port in seconds with six decimals.
fn push_seconds(out: &mut String, name: &str, microseconds: u64) -> Result<(), AllocError> {
    let (seconds, rest) = (microseconds / MILLION, microseconds % MILLION);
    // Prometheus' unit of time is the second; two whole numbers print the microseconds exactly.
    write!(out, "{name} {seconds}.{rest:0>6}\n")
}

/// A metric of each point.
#[derive(Clone, Copy)]
enum PointFigure {
    Connected,
    LastText,
    Boot,
    Waiting,
    WaitingSeconds,
    InFlight,
    InFlightSeconds,
    Confirmed,
    Rejected,
    Refused,
    MayHaveForgotten,
    Unheld,
    AuditDiffers,
}

const POINT_FIGURES: [PointFigure; 13] = [
    PointFigure::Connected,
    PointFigure::LastText,
    PointFigure::Boot,
    PointFigure::Waiting,
    PointFigure::WaitingSeconds,
    PointFigure::InFlight,
    PointFigure::InFlightSeconds,
    PointFigure::Confirmed,
    PointFigure::Rejected,
    PointFigure::Refused,
    PointFigure::MayHaveForgotten,
    PointFigure::Unheld,
    PointFigure::AuditDiffers,
];

impl PointFigure {
    /// Returns the name of the metric of each charge point on the status port, as Prometheus reads
    /// it.
    fn name(self) -> &'static str {
        match self {
            PointFigure::Connected => "central_point_connected",
            PointFigure::LastText => "central_point_last_text_timestamp_seconds",
            PointFigure::Boot => "central_point_boot_timestamp_seconds",
            PointFigure::Waiting => "central_calls_waiting",
            PointFigure::WaitingSeconds => "central_call_waiting_seconds",
            PointFigure::InFlight => "central_calls_in_flight",
            PointFigure::InFlightSeconds => "central_call_in_flight_seconds",
            PointFigure::Confirmed => "central_calls_confirmed_total",
            PointFigure::Rejected => "central_calls_rejected_total",
            PointFigure::Refused => "central_messages_refused_total",
            PointFigure::MayHaveForgotten => "central_point_may_have_forgotten",
            PointFigure::Unheld => "central_point_unheld_rows",
            PointFigure::AuditDiffers => "central_point_audit_differs",
        }
    }

    /// Returns the help text of the metric of each charge point on the status port for Prometheus.
    fn help(self) -> &'static str {
        match self {
            PointFigure::Connected => "Whether the point is connected.",
            PointFigure::LastText => "When its last message came.",
            PointFigure::Boot => "When its last BootNotification came.",
            PointFigure::Waiting => "Calls to it that wait.",
            PointFigure::WaitingSeconds =>
                "How long ago the first of them was added, or the program began.",
            PointFigure::InFlight => "Calls to it that were sent and have no reply: one at most.",
            PointFigure::InFlightSeconds => "How long ago that call was sent.",
            PointFigure::Confirmed => "Calls that it confirmed, whatever it replied.",
            PointFigure::Rejected => "Calls that it rejected since the journal began.",
            PointFigure::Refused =>
                "Messages of it that were answered with a CALLERROR since the program began.",
            PointFigure::MayHaveForgotten =>
                "Whether it may have lost a profile that it accepted, at a boot or before its audit.",
            PointFigure::Unheld => "Installed profiles that it isn't known to have.",
            PointFigure::AuditDiffers => "Whether it told another schedule in its last audit.",
        }
    }

    /// Returns whether the metric of each charge point on the status port is a counter for
    /// Prometheus, rather than a gauge.
    fn is_counter(self) -> bool {
        matches!(
            self,
            PointFigure::Confirmed | PointFigure::Rejected | PointFigure::Refused
        )
    }

    /// Returns the value of the status port's Prometheus metric for a charge point at a moment, or
    /// `None` if there is no sample.
    fn value(self, point: &PointSummary<'_>, now: Instant) -> Option<u64> {
        match self {
            PointFigure::Connected => Some(u64::from(point.news.connection.since.is_some())),
            PointFigure::LastText => Some(point.news.heard?.seconds()),
            PointFigure::Boot => Some(point.booted()?.seconds()),
            PointFigure::Waiting => Some(point.calls.waiting as u64),
            PointFigure::WaitingSeconds => seconds_since(point.calls.waiting_since, now),
            PointFigure::InFlight => Some(point.calls.in_flight as u64),
            PointFigure::InFlightSeconds => seconds_since(point.calls.in_flight_since, now),
            PointFigure::Confirmed => Some(point.calls.confirmed),
            PointFigure::Rejected => Some(point.news.rejections),
            PointFigure::Refused => Some(point.news.refusals),
            PointFigure::MayHaveForgotten => Some(u64::from(point.calls.may_have_lost)),
            PointFigure::Unheld => Some(point.calls.unheld),
            PointFigure::AuditDiffers => Some(u64::from(
                point.calls.audit == AuditOutcome::Differs,
            )),
        }
    }
}

/// Returns how many seconds ago this moment was, as the value of a Prometheus metric of the status
/// port. Returns `None` if there is no moment.
fn seconds_since(moment: Option<Instant>, now: Instant) -> Option<u64> {
    Some(now.seconds().saturating_sub(moment?.seconds()))
}
