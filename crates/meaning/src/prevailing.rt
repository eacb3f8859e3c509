//! The profile of a purpose that prevails at an instant.

ghost use Rattle.std.specs.Prelude.{◌≡◌, ℕ, [], ◌∷◌};
ghost use Rattle.std.specs.List.{filter_map};
ghost use Rattle.profile.specs.Greatest.{greatest};
ghost use Rattle.meaning.specs.View.{point_state, active_since};
ghost use Rattle.meaning.specs.Prevailing.{has_its_transaction, level_and_limit, prevailing};

use crate::view::View;
use ocpp_scalars::Instant;
use profile::{Purpose, Row, is_candidate};

impl View<'_> {
    /// Returns the limit of a connector at an instant by the prevailing profile of a purpose
    /// (chapter 3.13), definition by definition, in tenths. `None` if no profile of that purpose
    /// has one.
    pub(crate) fn prevailing(
        &self,
        purpose: Purpose,
        connector: usize,
        asked: Instant,
        instant: Instant,
    ) -> Option<u32>
        ensures { result ≡ prevailing purpose (point_state self.now) connector asked instant }
    {
        if !has_its_transaction(purpose, self.active_since(connector)) {
            return None;
        }
        let mut best = None;
        for row in self.rows {
            if is_candidate(purpose, self.rows, connector, row) {
                best = higher(best, self.level_and_limit(connector, asked, instant, row));
            }
        }
        best.map(|(_, limit)| limit)
    }

    /// Returns a charging profile's stack level and its limit for a connector at an instant, if it
    /// has one, for the definition of the profile that prevails.
    fn level_and_limit(
        &self,
        connector: usize,
        asked: Instant,
        instant: Instant,
        row: &Row,
    ) -> Option<(u32, u32)>
        ensures { result ≡ level_and_limit (point_state self.now) connector asked instant row.now }
    {
        let base = row.base(self.active_since(connector), asked);
        let limit = row.profile.rate(base, instant)?;
        Some((row.profile.stack_level, limit))
    }
}

/// Whether a profile of a purpose has the transaction that it needs.
pub fn has_its_transaction(purpose: Purpose, started: Option<Instant>) -> bool
    ensures { result ≡ has_its_transaction purpose started }
{
    match purpose {
        // A default counts without a transaction too, so that an operator sees the limit of a
        // future one.
        Purpose::ChargePointMaxProfile | Purpose::TxDefaultProfile => true,
        Purpose::TxProfile => started.is_some(),
    }
}

/// Returns, of two profiles' stack levels and limits, the one with the higher level, or the first
/// of equals, or the only one: the definition of the profile that prevails (chapter 3.13).
fn higher(best: Option<(u32, u32)>, next: Option<(u32, u32)>) -> Option<(u32, u32)>
    ensures { result ≡ greatest (λ (limit : ℕ × ℕ). limit.0)
        (filter_map (λ limit. limit) (best ∷ (next ∷ []))) }
{
    // Candidates of a book never have equal levels; for other rows the definition takes the first.
    match (best, next) {
        (Some(first), Some(second)) if first.0 < second.0 => Some(second),
        (None, _) => next,
        (Some(_), _) => best,
    }
}
