//! The calls that go to each point.

ghost use Rattle.std.specs.Prelude.{◌≡◌, true, false, map, option_map, IfOk};
ghost use Rattle.operator_calls.specs.Visits.{visited, all_points, visit_to};

use crate::given_call::GivenCall;
use crate::operator_url::last_segment;
use site_rules::Site;
use std::alloc::{AllocError, Global};

/// A point, and the calls that go to it.
#[derive(Drop)]
pub struct Visit {
    /// The point's identity.
    pub id: String,
    /// Whether the operator's URL lacks the identity: then lines about the point begin with it.
    pub is_labelled: bool,
    /// The indexes of the calls among those that are given.
    // A site has up to 1,000 points, and a copy of each frame for each would take much memory.
    pub calls: Vec<usize>,
    /// The number that the next call to the point had before, by the journal; 0 without one.
    pub next_call: u64,
}

impl Visit {
    /// Makes a visit, which is what the operator's `call` sends to one point: the first `count` of
    /// its calls. If labelled, each printed line about them begins with the point's identity.
    fn new(alloc: Global, id: &str, is_labelled: bool, count: usize) -> Result<Visit, AllocError>
        ensures { IfOk result (λ visit. visited visit ≡ (id.now, is_labelled)) }
    {
        let mut calls = Vec::new(alloc);
        for place in 0..count {
            calls.push(place)?;
        }
        Ok(Visit {
            id: String::from_str(alloc, id)?,
            is_labelled,
            calls,
            next_call: 0,
        })
    }

    /// Makes the visit to the point of an operator's URL, with the first `count` calls.
    pub fn of_url(alloc: Global, url: &str, count: usize) -> Result<Visit, AllocError>
        ensures { IfOk result (λ visit. visit.is_labelled ≡ false) }
    {
        Visit::new(alloc, last_segment(url), false, count)
    }

    /// Makes the visit to the point of this identity, with the first `count` calls. Returns none if
    /// the operator's URL names another point. The URL may name none.
    pub fn at_point(
        alloc: Global,
        named: Option<&str>,
        id: &str,
        count: usize,
    ) -> Result<Option<Visit>, AllocError>
        ensures { IfOk result (λ made.
            option_map visited made ≡ visit_to (option_map (λ point. point.now) named.entry) id.now) }
    {
        match named {
            Some(point) if point == id => Ok(Some(Visit::new(alloc, id, false, count)?)),
            Some(_) => Ok(None),
            None => Ok(Some(Visit::new(alloc, id, true, count)?)),
        }
    }

    /// Removes the calls of this name.
    pub fn leave_out(&mut self, name: &str, calls: &[GivenCall]) {
        self.calls.retain(|place| calls.get(*place).is_some_and(|call| call.name != name));
    }

    /// Returns the point's identity, if the URL lacks it.
    pub fn label(&self) -> Option<&str> {
        if self.is_labelled {
            Some(self.id.as_str())
        } else {
            None
        }
    }
}

/// Makes a visit to each point of a site, each with the first `count` calls.
pub fn visits_of_site(alloc: Global, site: &Site, count: usize) -> Result<Vec<Visit>, AllocError>
    ensures { IfOk result (λ visits. map visited visits.items ≡ all_points site.now) }
{
    let mut visits = Vec::new(alloc);
    for place in 0..site.len() {
        if let Some(point) = site.point(place) {
            visits.push(Visit::new(alloc, point.id, true, count)?)?;
        }
    }
    Ok(visits)
}
