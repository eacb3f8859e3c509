//! The texts of the status port of a small site, compared with texts written by hand.

use crate::reports::{machine, news, report, waits};
use crate::samples::{expect, same};
use site_status::{Health, SiteReport, health_answer, metrics_text, site_page, state_json};
use std::alloc::Global;
use std::process::Abort;

const STATE: &str =
    r#"{"moment":"2025-01-01T00:01:00Z","health":"device full","sessions":{"points":1,"operators":2},"seats":256,"freeSeats":253,"changes":4,"answers":5,"refusedHandshakes":6,"turnedAway":7,"journal":{"bytes":1234,"syncs":9,"syncMicroseconds":12003450},"points":[{"id":"CP1","connectedSince":"2025-01-01T00:00:01Z","lastText":"2025-01-01T00:00:02Z","booted":"2025-01-01T00:00:02Z","mayHaveForgotten":false,"unheld":0,"confirmed":0,"inFlight":0,"inFlightSince":null,"waiting":1,"waitingSince":"2025-01-01T00:00:05Z","rejections":1,"rejected":{"call":0,"action":"ClearChargingProfile","moment":"2025-01-01T00:00:04Z","reason":"no <room> & \"none\" \\ 'either'\n"},"refusals":1,"refused":{"moment":"2025-01-01T00:00:06Z","errorCode":"PropertyConstraintViolation","errorDescription":"UnknownConnector"},"audit":"None","transactions":[],"profiles":[]},{"id":"CP2","connectedSince":null,"lastText":null,"booted":null,"mayHaveForgotten":false,"unheld":0,"confirmed":0,"inFlight":0,"inFlightSince":null,"waiting":1,"waitingSince":null,"rejections":0,"rejected":null,"refusals":0,"refused":null,"audit":"None","transactions":[],"profiles":[]}]}
"#;

/// Some of the metrics' lines.
const SAMPLES: &str = r#"# TYPE central_healthy gauge
central_healthy 0
central_sessions{kind="point"} 1
central_sessions{kind="operator"} 2
central_seats 256
central_seats_free 253
# TYPE central_changes_total counter
central_changes_total 4
central_answers_total 5
central_handshakes_refused_total 6
central_connections_turned_away_total 7
central_journal_bytes 1234
central_journal_syncs_total 9
central_journal_sync_seconds_total 12.003450
central_point_connected{point="CP1"} 1
central_point_connected{point="CP2"} 0
central_point_last_text_timestamp_seconds{point="CP1"} 1735689602
central_point_boot_timestamp_seconds{point="CP1"} 1735689602
central_calls_waiting{point="CP1"} 1
central_calls_waiting{point="CP2"} 1
central_call_waiting_seconds{point="CP1"} 55
central_calls_in_flight{point="CP1"} 0
central_calls_confirmed_total{point="CP2"} 0
central_calls_rejected_total{point="CP1"} 1
central_messages_refused_total{point="CP1"} 1
central_messages_refused_total{point="CP2"} 0
central_point_may_have_forgotten{point="CP1"} 0
central_point_unheld_rows{point="CP1"} 0
central_point_audit_differs{point="CP2"} 0"#;

/// The section of the first point in the page.
const PARTS: &str = r#"<html lang="en">
<h2>CP1</h2>
<strong>The device of its journal is full
<h3>Connector 1: 32.0 A now</h3>
<svg role="img" aria-label="The limit of CP1, connector 1, over 24 hours; the list below has its numbers"
<li>from 00:01 <b>32.0 A</b> the connector&#39;s ceiling</li>
<a href="/points/CP1/1.svg">the picture of CP1, connector 1</a>
: no &lt;room&gt; &amp; &quot;none&quot; \ &#39;either&#39;
 was refused: PropertyConstraintViolation UnknownConnector</p>
<h2>CP2</h2>"#;

/// Checks in a test that the status port's metrics have each of these lines.
fn has_lines(rt: &impl Abort, text: &str, lines: &str) {
    for wanted in lines.lines() {
        assert!(rt; text.lines().any(|line| line == wanted), "{wanted}");
    }
}

/// Checks in a test the status port's texts of a small site: its JSON is the text written by hand,
/// and its metrics and its page, which people read, have the lines and parts written by hand.
fn check_texts(rt: &impl Abort, alloc: Global, report: &SiteReport<'_>) {
    let state = state_json(alloc, report).expect(rt, "error");
    same(rt, state.as_str(), STATE);
    let figures = metrics_text(alloc, report).expect(rt, "error");
    has_lines(rt, figures.as_str(), SAMPLES);
    let none = !figures.as_str().contains("central_call_in_flight_seconds{");
    assert!(rt; none, "none is in flight");
    let page = site_page(alloc, report, 1).expect(rt, "error");
    expect(rt, page.expect(rt, "a page").as_str(), PARTS);
}

/// Checks the status port's JSON, metrics and page of a small site against texts written by hand.
#[test]
fn texts_of_a_site(rt: HostRuntime) {
    let alloc = rt.alloc();
    let (machine, points) = (machine(&rt, alloc), news(&rt, alloc));
    let waits = waits(&rt);
    check_texts(
        &rt,
        alloc,
        &report(&rt, &machine, points.as_slice(), &waits),
    );
}

/// Checks the words for a site's health that programs read from the status port. A client sees only
/// two of them.
#[test]
fn words_of_health(rt: HostRuntime) {
    for (health, body) in [
        (Health::Restoring, "restoring\n"),
        (Health::JournalBroken, "journal broken\n"),
    ] {
        let answer = health_answer(rt.alloc(), health).expect(&rt, "error");
        same(&rt, answer.body.as_str(), body);
    }
}
