//! The laws of reasons, on a function that does nothing.

ghost use Rattle.std.specs.Prelude.{◌≡◌, ℕ, ◌<◌, option_map};
ghost use Rattle.profile.specs.declared.purpose.Purpose.{Purpose};
ghost use Rattle.meaning.specs.View.{PointState};
ghost use Rattle.meaning.specs.Prevailing.{prevailing};
ghost use Rattle.meaning.specs.Limit.{limit, own_limit};
ghost use Rattle.meaning.specs.Cause.{RowLimit, prevailing_row, share, reason, IsSetBy};

/// The laws of reasons: the limit of the row that prevails is the prevailing limit. The limit of a
/// reason is that of the definition, and its cause holds as stated. The same holds of each share of
/// a sum, whose limit is its connector's own.
pub fn reasons()
    ensures prevails { (purpose : Purpose) (state : PointState) (connector asked instant : ℕ)
        → prevailing purpose state connector asked instant
        ≡ option_map (λ (best : RowLimit). best.limit)
        (prevailing_row purpose state connector asked instant) }
    ensures limit { (state : PointState) (connector asked instant : ℕ)
        → (reason state connector asked instant).limit ≡ limit state connector asked instant }
    ensures cause { (state : PointState) (connector asked instant : ℕ)
        → IsSetBy state connector asked instant (reason state connector asked instant).limit
        (reason state connector asked instant).cause }
    ensures share_limit { (state : PointState) (asked instant connector : ℕ)
        → (share state asked instant connector).limit ≡ own_limit state connector asked instant }
    ensures share_cause { (state : PointState) (asked instant connector : ℕ) → 0 < connector
        → IsSetBy state connector asked instant (share state asked instant connector).limit
        (share state asked instant connector).cause }
{}
