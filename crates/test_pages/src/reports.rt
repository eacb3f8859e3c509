//! A small site, and the observations of its points.

use messages::{ActionKind, CallFault};
use ocpp_scalars::{Instant, Refusal};
use site_core::{Machine, PointId, Step};
use site_rules::read_site;
use site_status::{
    JournalReport, JournalState, Observation, PointActivity, RefusedMessage, SentMoment,
    SiteCounts, SiteReport,
};
use std::alloc::Global;
use std::process::Abort;
use test_books::instant_at;

const SITE: &str =
    r#"{"unit":"A","points":[{"id":"CP1","ceiling":63.0,"connectors":[32.0]},{"id":"CP2","ceiling":16.0,"connectors":[16.0]}]}"#;

/// A point's reply with characters that are special in JSON, in HTML and in a label.
const REASON: &str = "no <room> & \"none\" \\ 'either'\n";

/// Returns the instant a number of seconds after midnight, for tests of the status port.
pub(crate) fn at(rt: &impl Abort, seconds: u64) -> Instant {
    instant_at(seconds).expect(rt, "an instant")
}

/// Returns a small site without profiles and transactions, for tests of the status port. Its first
/// point booted.
pub(crate) fn machine(rt: &impl Abort, alloc: Global) -> Machine {
    let site = read_site(alloc, SITE.as_bytes()).ok().expect(rt, "a site");
    let mut machine = Machine::new(alloc, site).expect(rt, "error");
    let point = PointId::copied(alloc, "CP1").expect(rt, "error");
    let moment = at(rt, 2);
    let booted = machine.step(Step::Boot { point, moment });
    let _reply = booted.ok().expect(rt, "a boot");
    machine
}

/// Returns the observations of a small site's points, for tests of the status port. The first point
/// was sent call 0, rejected it, and sent a faulty message; the second has none.
pub(crate) fn news(rt: &impl Abort, alloc: Global) -> Vec<PointActivity> {
    let mut points = Vec::new(alloc);
    points.push(first_news(rt, alloc)).expect(rt, "error");
    points.push(PointActivity::new()).expect(rt, "error");
    points
}

/// Returns the observations of a small site's first point, for tests of the status port: it was
/// sent call 0, rejected it, and sent a message that was refused.
fn first_news(rt: &impl Abort, alloc: Global) -> PointActivity {
    let mut news = PointActivity::new();
    news.see(Observation::Connected {
        link: 1,
        moment: at(rt, 1),
    });
    news.see(Observation::Heard { moment: at(rt, 2) });
    news.see(Observation::Sent(SentMoment {
        number: 0,
        action: ActionKind::ClearChargingProfile,
        moment: at(rt, 3),
    }));
    let reason = String::from_str(alloc, REASON).expect(rt, "error");
    let _ = news.reply(0, Some(reason), at(rt, 4));
    news.see(Observation::Refused(RefusedMessage {
        fault: CallFault::Refused(Refusal::UnknownConnector),
        moment: at(rt, 6),
    }));
    news
}

/// Returns the moments since which a call to each point waits, for tests of the status port. For
/// the second point no moment is known.
pub(crate) fn waits(rt: &impl Abort) -> [Option<Instant>; 2] {
    [Some(at(rt, 5)), None]
}

/// Returns the report on a small site 60 seconds after midnight, for tests of the status port.
pub(crate) fn report<'a>(
    rt: &impl Abort,
    machine: &'a Machine,
    points: &'a [PointActivity],
    waiting_since: &'a [Option<Instant>],
) -> SiteReport<'a> {
    SiteReport {
        moment: at(rt, 60),
        machine,
        points,
        waiting_since,
        counts: SiteCounts {
            point_sessions: 1,
            operator_sessions: 2,
            seats: 256,
            free_seats: 253,
            changes: 4,
            answers: 5,
            refused_handshakes: 6,
            turned_away: 7,
        },
        journal: JournalReport {
            state: JournalState::Full,
            bytes: 1_234,
            syncs: 9,
            sync_microseconds: 12_003_450,
        },
    }
}
