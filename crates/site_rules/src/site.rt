//! A site, as its file describes it.

ghost use Rattle.std.specs.Prelude.{◌≡◌, ◌↔◌, ◌<◌, ◌++◌, [], ◌∷◌, None, length, option_map, slice_get, string_bytes, IsSome, IfSome, OnOk, OnErr};
ghost use Rattle.site_rules.specs.Site.{place_of, point_entry, kept_entry, IsPlaceOf};

use crate::point::{PointLimits, SitePoint};
use indexmap::IndexMap;
use profile::Unit;
use std::alloc::{AllocError, Global};
use std::marker::Model;

/// A site as its file describes it: its rate unit, and its charge points in the order of the file.
/// No two points have one identity.
#[derive(Drop)]
pub struct Site {
    unit: Unit,
    // A hash map, since each step names its point by identity. It keeps the order of the file.
    points: IndexMap<String, PointLimits>,
}

impl Model for Site {
    ghost use Rattle.std.specs.Prelude.{map};
    ghost use Rattle.site_rules.specs.Site.{SiteState, kept_entry};

    ghost Value = { SiteState };

    ghost view = { λ s. record { unit = s.unit; points = map kept_entry s.points.entries } };
}

impl Site {
    /// Creates a site without charge points, before they are read from its file. Allocates nothing.
    pub(crate) fn new(alloc: Global, unit: Unit) -> Site
        ensures { result ≡ record { unit = unit; points = [] } }
    {
        Site {
            unit,
            points: IndexMap::new(alloc),
        }
    }

    /// Adds a charge point of a new identity to a site, after the others, as it is read from the
    /// site file.
    pub(crate) fn add(&mut self, id: String, limits: PointLimits) -> Result<(), AllocError>
        requires { place_of self.old (string_bytes id) ≡ None }
        ensures unit { self.new.unit ≡ self.old.unit }
        ensures points { OnOk result
            (self.new.points ≡ self.old.points ++ kept_entry (id, limits) ∷ []) }
        ensures kept { OnErr result (self.new ≡ self.old) }
    {
        self.points.insert(id, limits)?;
        Ok(())
    }

    /// Returns the site with its charge points, in another unit, which its file may name after the
    /// points.
    pub(crate) fn with_unit(self, unit: Unit) -> Site
        ensures { result ≡ record { unit = unit; points = self.points } }
    {
        Site {
            unit,
            points: self.points,
        }
    }

    /// Returns the unit of the site's limits.
    pub fn unit(&self) -> Unit
        ensures { result ≡ self.now.unit }
    {
        self.unit
    }

    /// Returns the number of its points.
    pub fn len(&self) -> usize
        ensures { result ≡ length self.now.points }
    {
        self.points.len()
    }

    /// Returns the point at an index, from 0 in the order of the file.
    pub fn point(&self, place: usize) -> Option<SitePoint<'_>>
        ensures point { option_map point_entry result ≡ slice_get self.now.points place }
        ensures found { IsSome result ↔ (place < length self.now.points) }
    {
        let (id, limits) = self.points.get_index(place)?;
        Some(SitePoint {
            id: id.as_str(),
            ceiling: limits.ceiling,
            ceilings: limits.ceilings.as_slice(),
        })
    }

    /// Returns the index of the point with an identity. The time doesn't grow with the number of
    /// points.
    pub fn place_of(&self, id: &str) -> Option<usize>
        ensures place { result ≡ place_of self.now id.now }
        ensures within { IfSome result (λ place. place < length self.now.points) }
        ensures found { IfSome result (IsPlaceOf self.now id.now) }
    {
        self.points.get_index_of(id)
    }
}
