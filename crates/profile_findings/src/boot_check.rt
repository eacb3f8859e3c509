//! The remark on a point that booted.

use crate::installed_check::finding_at_end;
use findings::{Finding, Severity, instant_text};
use ocpp_scalars::Instant;
use std::alloc::{AllocError, Global};

/// Makes the remark that the point of this identity booted, and may have forgotten its profiles.
pub fn check_boot(alloc: Global, point: &str, moment: Instant) -> Result<Finding, AllocError> {
    let booted = instant_text(alloc, moment)?;
    let message = format!(in alloc;
        "it booted at {booted}, and may have forgotten its profiles: audit it, or install them anew"
    )?;
    finding_at_end(alloc, Severity::Remark, point, message)
}
