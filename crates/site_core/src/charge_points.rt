//! The points of a site, each at its place.

ghost use Rattle.std.specs.Prelude.{◌≡◌, ◌<◌, IfOk, length, map};
ghost use Rattle.site_core.specs.ChargePoint.{opening_point};
ghost use Rattle.site_core.specs.State.{point_in};

use crate::charge_point::ChargePoint;
use site_rules::Site;
use std::alloc::{AllocError, Global};

/// Makes the charge points of the machine at the opening of a site, with nothing installed, no
/// active transaction and no link.
pub(crate) fn opening_points(alloc: Global, site: &Site) -> Result<Vec<ChargePoint>, AllocError>
    ensures { IfOk result (λ points. points.items ≡ map opening_point site.now.points) }
{
    let mut points = Vec::with_capacity(alloc, site.len())?;
    while let Some(point) = site.point(points.len()) {
        points.push(ChargePoint::new(alloc, &point)?)?;
    }
    Ok(points)
}

/// Copies the states of the machine's charge points, sharing their books, for a copy of the
/// machine.
pub(crate) fn copy_of_points(
    alloc: Global,
    points: &[ChargePoint],
) -> Result<Vec<ChargePoint>, AllocError>
    ensures { IfOk result (λ copies. copies.items ≡ points.now) }
{
    let mut copies = Vec::with_capacity(alloc, points.len())?;
    for point in points {
        copies.push(point.copy()?)?;
    }
    Ok(copies)
}

/// Gathers the calls in the outbox of each of the machine's charge points, if memory lasts, so that
/// copies of the machine share them.
pub(crate) fn gather_calls(points: &mut Vec<ChargePoint>)
    ensures { points.new.items ≡ points.old.items }
{
    for point in points.iter_mut() {
        point.gather_calls();
    }
}

/// Returns the state that the machine keeps of the charge point at a place in the site file.
pub(crate) fn point_at(points: &Vec<ChargePoint>, place: usize) -> &ChargePoint
    requires { place < length points.now.items }
    ensures { result.now ≡ point_in points.now.items place }
{
    &points[place]
}
