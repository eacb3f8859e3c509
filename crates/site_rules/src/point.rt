//! A charge point of a site.

ghost use Rattle.std.specs.Prelude.{◌≤◌, length};
ghost use Rattle.site_rules.specs.Limits.{max_connectors};

/// A charge point of a site, borrowed.
#[derive(Clone, Copy)]
pub struct SitePoint<'a> {
    /// Its identity.
    pub id: &'a str,
    /// Its ceiling, in tenths of the site's unit.
    pub ceiling: u32,
    /// The ceilings of its connectors 1, 2, .., in tenths.
    pub ceilings: &'a [u32],
    pub ghost few: { length ceilings.now ≤ max_connectors },
}

/// The limits of a charge point, which a site keeps by its identity.
#[derive(Drop)]
pub(crate) struct PointLimits {
    pub ceiling: u32,
    pub ceilings: Vec<u32>,
    pub ghost few: { length ceilings.items ≤ max_connectors },
}
