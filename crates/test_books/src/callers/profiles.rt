//! A caller of `profile`.

use ocpp_scalars::Instant;
use profile::{
    Period, PeriodList, Profile, ProfileKind, ProfileParts, Purpose, ScheduleParts, Unit,
};
use std::test::Fail;

/// Checks the limits of a charging profile of 16 A for an hour and 8 A for another, from its base
/// on.
#[test]
fn a_profile_has_a_limit(rt: HostRuntime) -> Result<(), Fail> {
    let mut periods = Vec::new(rt.alloc());
    for (start, limit) in [(0, 160), (3_600, 80)] {
        periods.push(Period {
            start,
            limit,
            number_phases: None,
        })?;
    }
    let schedule = ScheduleParts {
        duration: Some(7_200),
        start: None,
        unit: Unit::A,
        periods: PeriodList::try_new(periods)?.ok_or("no period")?,
        min_charging_rate: None,
    };
    let parts = ProfileParts {
        id: 1,
        transaction: None,
        stack_level: 0,
        purpose: Purpose::TxDefaultProfile,
        kind: ProfileKind::Relative,
        recurrency: None,
        valid_from: None,
        valid_to: None,
        schedule,
    };
    let Ok(profile) = Profile::try_new(parts) else {
        return Err(Fail::new("no profile"));
    };
    let base = Instant::try_new(0).ok_or("no instant")?;
    let later = Instant::try_new(3_600).ok_or("no instant")?;
    let end = Instant::try_new(7_200).ok_or("no instant")?;
    assert_eq!(rt; profile.rate(base, later), Some(80));
    assert_eq!(rt; profile.rate(base, end), None);
    Ok(())
}
