//! The connectors at which a profile may be installed.

ghost use Rattle.std.specs.Prelude.{◌≡◌, None, Some, IfOk, MatchResult, option_map};
ghost use Rattle.profile.specs.Purpose.{is_charge_point_max, is_tx};
ghost use Rattle.site_rules.specs.Site.{HasConnector, entry_of, point_entry};
ghost use Rattle.site_rules.specs.Admission.{admission_refusal};

use crate::point::SitePoint;
use crate::site::Site;
use ocpp_scalars::Refusal;
use profile::{Profile, Purpose};

/// Checks that a profile may be installed at a connector of a point, where connector 0 is the whole
/// point. Returns the first cause why not: `UnknownPoint`, `UnknownConnector`, `MaxNotAtZero`,
/// `TxAtZero` or `WrongUnit`. Allocates nothing.
pub fn admit(site: &Site, point: &str, connector: u32, profile: &Profile) -> Result<(), Refusal>
    ensures refusal { MatchResult result
        (λ _. admission_refusal site.now point.now connector profile.now ≡ None)
        (λ refusal. admission_refusal site.now point.now connector profile.now ≡ Some refusal) }
    ensures connector { IfOk result (λ _. HasConnector site.now point.now connector) }
{
    let Some(entry) = point_named(site, point) else {
        return Err(Refusal::UnknownPoint);
    };
    if connector as usize > entry.ceilings.len() {
        return Err(Refusal::UnknownConnector);
    }
    // A ChargePointMaxProfile limits the whole point, connector 0 (OCPP 1.6, 3.13.1).
    if is_charge_point_max(profile.purpose) && connector > 0 {
        return Err(Refusal::MaxNotAtZero);
    }
    if is_tx(profile.purpose) && connector == 0 {
        return Err(Refusal::TxAtZero);
    }
    // A conversion between amperes and watts needs the voltage, which no schedule has.
    if !profile.schedule.unit.is_same(site.unit()) {
        return Err(Refusal::WrongUnit);
    }
    Ok(())
}

/// Returns the charge point of this identity in a site file, by whose rules a profile may or may
/// not be installed there.
fn point_named<'a>(site: &'a Site, id: &str) -> Option<SitePoint<'a>>
    ensures { option_map point_entry result ≡ entry_of site.now id.now }
{
    let place = site.place_of(id)?;
    site.point(place)
}

/// Whether the purpose of a charging profile is ChargePointMaxProfile, which the site's rules admit
/// at connector 0 only.
fn is_charge_point_max(purpose: Purpose) -> bool
    ensures { result ≡ is_charge_point_max purpose }
{
    matches!(purpose, Purpose::ChargePointMaxProfile)
}

/// Whether a charging profile's purpose is TxProfile, which the site's rules don't admit at
/// connector 0.
fn is_tx(purpose: Purpose) -> bool
    ensures { result ≡ is_tx purpose }
{
    matches!(purpose, Purpose::TxProfile)
}
