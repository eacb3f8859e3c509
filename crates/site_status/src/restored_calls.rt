//! The calls to a point, as a journal has them.

use crate::call_moments::CallMoments;
use crate::point_activity::RejectedCalls;

/// The calls to a point, as a journal has them.
#[derive(Drop)]
pub struct RestoredCalls {
    /// Those that it rejected.
    pub rejected: RejectedCalls,
    /// When those that it hasn't confirmed were added.
    pub added: CallMoments,
}
