//! Observations of a site's connections.

use messages::{ActionKind, ReplyStatus};
use ocpp_scalars::Instant;
use site_core::Machine;
use site_status::{
    CallMoments, CallNumbers, Observation, PointActivity, RestoredCalls, SentMoment, SiteCounts,
};
use std::alloc::{AllocError, Global};
use std::sync::{Mutex, Wait};

/// The observations of a site's connections since the program started, and of calls from before.
#[derive(Drop)]
pub struct SiteWatch {
    seen: Mutex<Seen>,
    /// When the calls to each point were added, by its place in the site.
    calls: Mutex<Vec<CallMoments>>,
}

/// The observations at a moment.
#[derive(Drop)]
pub struct Seen {
    /// The activity of each point, by its place in the site.
    pub points: Vec<PointActivity>,
    pub counts: SiteCounts,
}

/// A point's reply to a call.
#[derive(Drop)]
pub struct PointReply {
    pub call: u64,
    /// Why the point rejects it, if it does.
    pub rejection: Option<String>,
    pub moment: Instant,
}

/// A call that its point rejected.
#[derive(Clone, Copy)]
pub struct Rejected {
    /// The action of the call, if it is known.
    pub action: Option<ActionKind>,
}

impl SiteWatch {
    /// Makes the observations of a site with `points` points, of which nothing was seen.
    pub fn make(alloc: Global, points: usize) -> Result<SiteWatch, AllocError> {
        let mut places = Vec::with_capacity(alloc, points)?;
        let mut calls = Vec::with_capacity(alloc, points)?;
        for _point in 0..points {
            places.push(PointActivity::new())?;
            calls.push(CallMoments::new(alloc))?;
        }
        Ok(SiteWatch {
            seen: Mutex::new(Seen {
                points: places,
                counts: no_counts(),
            }),
            calls: Mutex::new(calls),
        })
    }

    /// Sets the number of connections that are served at a time.
    pub fn set_seats<R: Wait>(&self, rt: &R, seats: u64) {
        self.seen.lock(rt).counts.seats = seats;
    }

    /// Counts a connection that wasn't let in.
    pub fn refuse<R: Wait>(&self, rt: &R) {
        let mut seen = self.seen.lock(rt);
        seen.counts.refused_handshakes = seen.counts.refused_handshakes.saturating_add(1);
    }

    /// Counts a connection for which there was no seat.
    pub fn turn_away<R: Wait>(&self, rt: &R) {
        let mut seen = self.seen.lock(rt);
        seen.counts.turned_away = seen.counts.turned_away.saturating_add(1);
    }

    /// Counts a session that begins, of a point or of an operator.
    pub fn begin<R: Wait>(&self, rt: &R, is_point: bool) {
        let mut seen = self.seen.lock(rt);
        let sessions = sessions_of(&mut seen.counts, is_point);
        *sessions = sessions.saturating_add(1);
    }

    /// Removes a session that has ended from the count.
    pub fn end<R: Wait>(&self, rt: &R, is_point: bool) {
        let mut seen = self.seen.lock(rt);
        let sessions = sessions_of(&mut seen.counts, is_point);
        *sessions = sessions.saturating_sub(1);
    }

    /// Records an observation of the point at a place.
    pub fn see<R: Wait>(&self, rt: &R, place: usize, sighting: Observation) {
        let mut seen = self.seen.lock(rt);
        if let Some(news) = seen.points.get_mut(place) {
            news.see(sighting);
        }
    }

    /// Records the calls to the point at a place from before the program started, as the journal has
    /// them.
    pub fn resume<R: Wait>(&self, rt: &R, place: usize, calls: RestoredCalls) {
        let RestoredCalls { rejected, added } = calls;
        if let Some(news) = self.seen.lock(rt).points.get_mut(place) {
            news.resume_rejections(rejected);
        }
        if let Some(moments) = self.calls.lock(rt).get_mut(place) {
            *moments = added;
        }
    }

    /// Records the calls that the point at a place has at a moment. If memory runs out, they are
    /// recorded the next time.
    pub fn see_calls<R: Wait>(&self, rt: &R, place: usize, numbers: CallNumbers, moment: Instant) {
        let mut calls = self.calls.lock(rt);
        if let Some(moments) = calls.get_mut(place) {
            let _ = moments.see(numbers, moment);
        }
    }

    /// Records the calls that each point has at a moment, in this state of the site.
    pub fn see_all_calls<R: Wait>(&self, rt: &R, machine: &Machine, moment: Instant) {
        let site = machine.site();
        for place in 0..site.len() {
            if let Some(point) = site.point(place) {
                if let Some(outbox) = machine.outbox_of(point.id) {
                    self.see_calls(rt, place, CallNumbers::of(outbox), moment);
                }
            }
        }
    }

    /// Returns since when the longest-waiting call to each point waits, in this state of the site.
    pub fn waiting_since<R: Wait>(
        &self,
        rt: &R,
        alloc: Global,
        machine: &Machine,
    ) -> Result<Vec<Option<Instant>>, AllocError> {
        let calls = self.calls.lock(rt);
        let mut since = Vec::with_capacity(alloc, calls.len())?;
        for (place, moments) in calls.iter().enumerate() {
            since.push(waiting_at(machine, place, moments))?;
        }
        Ok(since)
    }

    /// Records the reply of the point at a place to a call, and returns the call if it is rejected.
    pub fn reply<R: Wait>(&self, rt: &R, place: usize, reply: PointReply) -> Option<Rejected> {
        let PointReply {
            call,
            rejection,
            moment,
        } = reply;
        let mut seen = self.seen.lock(rt);
        let news = seen.points.get_mut(place)?;
        let rejection = rejection_of(news.sent, call, rejection);
        let is_rejected = rejection.is_some();
        let action = news.reply(call, rejection, moment);
        if is_rejected {
            return Some(Rejected { action });
        }
        None
    }

    /// Records the end of the connection over which the point at a place had this link. Returns
    /// whether the point has no later one.
    pub fn leave<R: Wait>(&self, rt: &R, place: usize, link: u64) -> bool {
        let mut seen = self.seen.lock(rt);
        match seen.points.get_mut(place) {
            Some(news) => news.connection.leave(link),
            None => false,
        }
    }

    /// Returns a copy of the observations.
    pub fn copy<R: Wait>(&self, rt: &R, alloc: Global) -> Result<Seen, AllocError> {
        let seen = self.seen.lock(rt);
        let mut points = Vec::with_capacity(alloc, seen.points.len())?;
        for news in &seen.points {
            points.push(news.copy(alloc)?)?;
        }
        Ok(Seen {
            points,
            counts: seen.counts,
        })
    }
}

/// Returns since when a call to a point waits, if one does, by the times that the server has
/// observed. The point is at this place of the site file.
// The state may have changed since these moments: a call has one only if both have its number.
fn waiting_at(machine: &Machine, place: usize, moments: &CallMoments) -> Option<Instant> {
    let point = machine.site().point(place)?;
    moments.waiting_since(machine.outbox_of(point.id)?)
}

/// Returns the count of the points' sessions, or of the operators', among those that the server
/// observes for the status port.
fn sessions_of(counts: &mut SiteCounts, is_point: bool) -> &mut u64 {
    if is_point {
        &mut counts.point_sessions
    } else {
        &mut counts.operator_sessions
    }
}

/// Returns the counts that the server observes for the status port before any session: all are
/// zero.
fn no_counts() -> SiteCounts {
    SiteCounts {
        point_sessions: 0,
        operator_sessions: 0,
        seats: 0,
        free_seats: 0,
        changes: 0,
        answers: 0,
        refused_handshakes: 0,
        turned_away: 0,
    }
}

/// Returns why a point's reply rejects a call, if it does, for the server's observations of the
/// site. A reply's status that leaves nothing undone rejects nothing.
fn rejection_of(sent: Option<SentMoment>, call: u64, rejection: Option<String>) -> Option<String> {
    let reason = rejection?;
    match (sent, ReplyStatus::named(reason.as_str())) {
        (Some(sent), Some(status)) if sent.number == call && status.is_done(sent.action) => None,
        _ => Some(reason),
    }
}
