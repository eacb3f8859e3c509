//! The HTML page of a site: the state of each point, and its limits over the next 24 hours. It
//! loads nothing, and needs no script.

ghost use Rattle.std.specs.Prelude.{◌≡◌, IfOk, is_some, length};
ghost use Rattle.site_status.specs.Found.{is_page};

use crate::health::Health;
use crate::next_day::explained_day;
use crate::page_style::STYLE;
use crate::point_activity::{RefusedMessage, Rejection};
use crate::point_summary::{CallSummary, PointSummary, calls_of_points, summary_at};
use crate::site_report::SiteReport;
use crate::strip::{Shown, push_strip};
use explain_pages::push_element;
use messages::{AuditOutcome, purpose_name};
use ocpp_scalars::Instant;
use page_text::Page;
use profile::Row;
use site_core::ProfileState;
use std::alloc::{AllocError, Global};

/// The number of points on a page.
// Each connector on a page has its next day explained, so this bounds the cost of a page.
pub const POINTS_OF_PAGE: usize = 20;

/// Formats a page of a site by its number, counted from 1. Returns `None` if the site has fewer
/// pages.
pub fn site_page(
    alloc: Global,
    report: &SiteReport<'_>,
    number: usize,
) -> Result<Option<String>, AllocError>
    ensures { IfOk result (λ page.
        is_some page ≡ is_page (length report.now.points.now) number) }
{
    let points = report.points.len();
    let Some(first) = first_of_page(points, number) else {
        return Ok(None);
    };
    let calls = calls_of_points(alloc, report)?;
    let mut page = Page::new(alloc);
    push_opening(&mut page, report, unheld_points(report, &calls));
    push_pages(&mut page, number, points.div_ceil(POINTS_OF_PAGE));
    page.push_str("<main>\n");
    for (place, calls) in calls.iter().enumerate().skip(first).take(POINTS_OF_PAGE) {
        if let Some(point) = summary_at(report, place, *calls) {
            push_point(&mut page, report, &point);
        }
    }
    page.push_str("</main>\n</body>\n</html>\n");
    Ok(Some(page.finish()?))
}

/// Returns the place in the site file of the first charge point on a page of the site's status, if
/// the site has the page.
fn first_of_page(points: usize, number: usize) -> Option<usize>
    ensures { is_some result ≡ is_page points number }
{
    let first = number.checked_sub(1)?.checked_mul(POINTS_OF_PAGE)?;
    if first < points { Some(first) } else { None }
}

/// Appends the beginning of the status page up to its points: the time, the site's health and the
/// numbers of sessions.
fn push_opening(page: &mut Page, report: &SiteReport<'_>, unheld: usize) {
    page.push_str("<!DOCTYPE html>\n<html lang=\"en\">\n<head>\n<meta charset=\"utf-8\">\n");
    page.push_str("<meta name=\"viewport\" content=\"width=device-width, initial-scale=1\">\n");
    page.push_str("<title>The site</title>\n");
    page.push_str(STYLE);
    page.push_str("</head>\n<body>\n<header>\n<h1>The site at ");
    push_moment(page, report.moment);
    page.push_str("</h1>\n<p>");
    page.push_str(health_sentence(Health::of(Some(report.journal.state))));
    push_unheld(page, unheld);
    let counts = report.counts;
    let (points, operators) = (counts.point_sessions, counts.operator_sessions);
    write!(
        page,
        " Sessions: {points} of points, {operators} of operators."
    );
    page.push_str(" Times are in UTC.</p>\n</header>\n");
}

/// Returns the sentence about the site's health at the top of the status page.
fn health_sentence(health: Health) -> &'static str {
    match health {
        Health::Well => "It is well.",
        Health::Restoring => "<strong>It is being restored.</strong>",
        Health::DeviceFull => {
            "<strong>The device of its journal is full: changes are refused until there is room.</strong>"
        }
        Health::JournalBroken => "<strong>Its journal can't be written.</strong>",
    }
}

/// Returns how many connected points aren't known to have all their profiles, for the top of the
/// status page.
fn unheld_points(report: &SiteReport<'_>, calls: &[CallSummary]) -> usize {
    let mut points = 0usize;
    for (news, calls) in report.points.iter().zip(calls) {
        if news.connection.since.is_some() && calls.unheld > 0 {
            points = points.saturating_add(1);
        }
    }
    points
}

/// Appends to the top of the status page how many connected points aren't known to have all their
/// profiles, if any.
fn push_unheld(page: &mut Page, points: usize) {
    if points > 0 {
        write!(
            page,
            " <strong>Connected points without a profile that is meant for them: {points}.</strong>"
        );
    }
}

/// Appends the links between the pages of the site's status, if there is more than one.
fn push_pages(page: &mut Page, number: usize, pages: usize) {
    if pages <= 1 {
        return;
    }
    page.push_str("<nav aria-label=\"Pages\"><ul>\n");
    for other in 1..=pages {
        if other == number {
            write!(page, "<li aria-current=\"page\">{other}</li>\n");
        } else {
            write!(
                page,
                "<li><a href=\"/page/{other}\">page {other}</a></li>\n"
            );
        }
    }
    page.push_str("</ul></nav>\n");
}

/// Appends a charge point to the status page: its state, and the limits of its connectors.
fn push_point(page: &mut Page, report: &SiteReport<'_>, point: &PointSummary<'_>) {
    push_element(page, "<section>\n<h2>", point.id, "</h2>\n");
    push_state(page, point);
    for before in 0..point.book.connectors() {
        let connector = before + 1;
        let explanation = match explained_day(
            page.allocator(),
            point.book,
            connector,
            report.moment,
        ) {
            Ok(Some(explanation)) => explanation,
            Ok(None) => continue,
            Err(AllocError) => return page.fail(),
        };
        let shown = Shown {
            point: point.id,
            connector,
            unit: report.machine.site().unit(),
            from: report.moment,
        };
        push_strip(page, &shown, &explanation);
    }
    page.push_str("</section>\n");
}

/// Appends the state of a charge point to the status page, with its warnings.
fn push_state(page: &mut Page, point: &PointSummary<'_>) {
    page.push_str("<dl>\n");
    push_seen(
        page,
        "Connected since",
        point.news.connection.since,
        "not connected",
    );
    push_seen(page, "Last message", point.news.heard, NOT_SEEN);
    push_seen(page, "Booted", point.booted(), NOT_SEEN);
    push_calls(page, point);
    page.push_str("</dl>\n");
    push_warnings(page, point);
}

/// Appends the state of the calls to a charge point to the status page.
fn push_calls(page: &mut Page, point: &PointSummary<'_>) {
    push_seen(
        page,
        "Call in flight since",
        point.calls.in_flight_since,
        "none is",
    );
    push_count(page, "Calls waiting", point.calls.waiting as u64);
    push_seen(
        page,
        "Call waiting since",
        point.calls.waiting_since,
        "none is",
    );
    push_count(page, "Calls confirmed", point.calls.confirmed);
    push_count(page, "Calls rejected", point.news.rejections);
    push_count(page, "Messages refused", point.news.refusals);
}

/// Appends to the status page what an operator has to do about a charge point, if anything.
fn push_warnings(page: &mut Page, point: &PointSummary<'_>) {
    if let Some(rejection) = &point.news.rejection {
        push_rejection(page, rejection);
    }
    if let Some(refused) = point.news.refused {
        push_refused(page, refused);
    }
    for row in point.book.view().rows {
        push_profile_state(page, row, point.profile_state_of(row));
    }
    if point.calls.may_have_lost {
        page.push_str("<p class=\"warning\">It may have lost profiles: ");
        page.push_str("audit it, or install them anew.</p>\n");
    }
    if point.calls.audit == AuditOutcome::Differs {
        page.push_str("<p class=\"warning\">In its last audit it told another schedule: ");
        page.push_str("install its profiles anew, and audit it again.</p>\n");
    }
}

/// Appends to the status page the warning that a charge point isn't known to have an installed
/// profile, unless it has it.
fn push_profile_state(page: &mut Page, row: &Row, state: ProfileState) {
    let what = match state {
        ProfileState::Held => return,
        ProfileState::Sent => "the point hasn't confirmed it yet",
        ProfileState::Unsure => "the point may have lost it",
        ProfileState::Rejected => "the point rejected it, and doesn't have it",
    };
    let (purpose, id) = (purpose_name(row.profile.purpose), row.profile.id);
    let connector = row.connector;
    write!(
        page,
        "<p class=\"warning\">{purpose} {id} at connector {connector}: {what}.</p>\n"
    );
}

/// Appends to the status page the warning that a charge point rejected a call, with its reason.
fn push_rejection(page: &mut Page, rejection: &Rejection) {
    let call = rejection.call;
    write!(page, "<p class=\"warning\">It rejected call {call}");
    if let Some(action) = rejection.action {
        push_element(page, ", ", action.name(), ",");
    }
    page.push_str(" at ");
    push_moment(page, rejection.moment);
    push_element(page, ": ", rejection.reason.as_str(), "</p>\n");
}

/// Appends to the status page the warning that a charge point's last faulty message was refused.
fn push_refused(page: &mut Page, refused: RefusedMessage) {
    let (code, description) = (refused.fault.code(), refused.fault.description());
    page.push_str("<p class=\"warning\">Its message at ");
    push_moment(page, refused.moment);
    write!(page, " was refused: {code} {description}</p>\n");
}

/// The text in place of a moment that wasn't observed.
const NOT_SEEN: &str = "not seen";

/// Appends the time of an observation of a charge point to the status page, or `without` if there
/// is none.
fn push_seen(page: &mut Page, name: &str, moment: Option<Instant>, without: &str) {
    push_element(page, "<div><dt>", name, "</dt><dd>");
    match moment {
        Some(moment) => push_moment(page, moment),
        None => page.push_str(without),
    }
    page.push_str("</dd></div>\n");
}

/// Appends a count of calls to a charge point to the status page, with its name.
fn push_count(page: &mut Page, name: &str, count: u64) {
    push_element(page, "<div><dt>", name, "</dt><dd>");
    write!(page, "{count}</dd></div>\n");
}

/// Appends a time to the status page as an element `time`, for people and for programs.
fn push_moment(page: &mut Page, moment: Instant) {
    page.push_str("<time datetime=\"");
    page.push_instant(moment);
    page.push_str("\">");
    page.push_instant(moment);
    page.push_str("</time>");
}
