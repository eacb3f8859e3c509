//! The answers of the status port.

ghost use Rattle.std.specs.Prelude.{◌≡◌, IfOk, is_some};
ghost use Rattle.site_status.specs.Found.{found, status_at};
ghost use Rattle.site_status.specs.Health.{status_of};

use crate::asked_path::StatusPath;
use crate::health::Health;
use crate::metrics::metrics_text;
use crate::next_day::connector_picture;
use crate::page::site_page;
use crate::site_report::SiteReport;
use crate::state_page::state_json;
use std::alloc::{AllocError, Global};

/// An answer of the status port.
#[derive(Drop)]
pub struct StatusAnswer {
    /// Its status (RFC 9110, section 15).
    pub status: u16,
    pub kind: ContentKind,
    pub body: String,
}

/// The content type of a body.
#[derive(Clone, Copy, PartialEq, Eq)]
pub enum ContentKind {
    Text,
    Metrics,
    Json,
    Html,
    Svg,
}

impl ContentKind {
    /// Returns its media type for the header (RFC 9110, section 8.3).
    pub fn name(self) -> &'static str {
        match self {
            ContentKind::Text => "text/plain; charset=utf-8",
            // Prometheus chooses its parser by this type.
            ContentKind::Metrics => "text/plain; version=0.0.4; charset=utf-8",
            ContentKind::Json => "application/json",
            ContentKind::Html => "text/html; charset=utf-8",
            ContentKind::Svg => "image/svg+xml",
        }
    }
}

/// Returns the answer with the health of a site.
pub fn health_answer(alloc: Global, health: Health) -> Result<StatusAnswer, AllocError>
    ensures { IfOk result (λ answer. answer.status ≡ status_of health) }
{
    let mut body = String::from_str(alloc, health.name())?;
    body.push('\n')?;
    Ok(StatusAnswer {
        status: health.status(),
        kind: ContentKind::Text,
        body,
    })
}

/// Returns the answer to a path that doesn't exist.
pub fn not_found(alloc: Global) -> Result<StatusAnswer, AllocError>
    ensures { IfOk result (λ answer. answer.status ≡ 404) }
{
    let body = String::from_str(
        alloc,
        "There are /, /health, /metrics, /state.json and /points/ID/CONNECTOR.svg.\n",
    )?;
    Ok(StatusAnswer {
        status: 404,
        kind: ContentKind::Text,
        body,
    })
}

/// Returns the answer to a path. Only the status of `/health` depends on the site's health.
pub fn answer_of(
    alloc: Global,
    path: StatusPath<'_>,
    report: &SiteReport<'_>,
) -> Result<StatusAnswer, AllocError>
    ensures { IfOk result (λ answer. answer.status ≡ status_at report.now path.entry) }
{
    match path {
        StatusPath::Health => health_answer(alloc, Health::of(Some(report.journal.state))),
        StatusPath::Metrics => {
            let body = metrics_text(alloc, report)?;
            Ok(found(ContentKind::Metrics, body))
        }
        StatusPath::State => {
            let body = state_json(alloc, report)?;
            Ok(found(ContentKind::Json, body))
        }
        StatusPath::Page { number } => {
            let page = site_page(alloc, report, number)?;
            found_if_any(alloc, ContentKind::Html, page)
        }
        StatusPath::Picture { point, connector } => {
            let picture = connector_picture(alloc, report, point, connector)?;
            found_if_any(alloc, ContentKind::Svg, picture)
        }
    }
}

/// Returns the status port's answer with a page or a picture of the site's status, or 404 if the
/// site doesn't have it.
fn found_if_any(
    alloc: Global,
    kind: ContentKind,
    body: Option<String>,
) -> Result<StatusAnswer, AllocError>
    ensures { IfOk result (λ answer. answer.status ≡ found (is_some body)) }
{
    match body {
        Some(body) => Ok(found(kind, body)),
        None => not_found(alloc),
    }
}

/// Returns the status port's answer with a text that the site's status has: 200, with the text as a
/// body of this content type.
fn found(kind: ContentKind, body: String) -> StatusAnswer
    ensures { result.status ≡ 200 }
{
    StatusAnswer {
        status: 200,
        kind,
        body,
    }
}
