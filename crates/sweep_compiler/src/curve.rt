//! The limits along which a sweep goes.

ghost use Rattle.std.specs.Prelude.{◌≡◌, ℕ, ◌+◌, ◌<◌, ◌^◌, Bool, IfErr, IfOk, IfSome};
ghost use Rattle.ocpp_scalars.specs.declared.refusal.Refusal.TheVariants.{OutOfMemory};
ghost use Rattle.sweep_compiler.specs.ByCases.Curve.{LeadsOn};

use crate::turns::Turns;
use ocpp_scalars::Refusal;

/// A limit over the seconds of a schedule, which changes only at places, and the current second of
/// a sweep along it.
pub(crate) trait Curve {
    /// The limit at a second.
    ghost limits: { Self → ℕ → ℕ };

    /// Whether a second is a place.
    ghost is_place: { Self → ℕ → Bool };

    /// The number of seconds.
    ghost end: { Self → ℕ };

    /// The current second of the sweep.
    ghost here: { Self → ℕ };

    /// Whether the limit can be evaluated here: not in the middle of a second.
    ghost IsReady: { Self → Type 0 };

    /// Returns the limit at the current second of the sweep of a composite schedule, in tenths,
    /// which takes one turn.
    fn limit(&self, turns: &mut Turns) -> u32
        requires ready { IsReady self.now }
        requires within { here self.now < end self.now }
        requires room { turns.old + 1 < 2 ^ 64 }
        ensures limit { result ≡ limits self.now (here self.now) }
        ensures turn { turns.new ≡ turns.old + 1 };

    /// Moves the sweep of a composite schedule to a later place, up to which the limit is the same
    /// as here, and returns it. Returns `None` if the limit is the same to the end, and
    /// `OutOfMemory` if memory runs out on the way; then the sweep can't go on.
    fn go_on(&mut self) -> Result<Option<u32>, Refusal>
        requires ready { IsReady self.old }
        requires within { here self.old < end self.old }
        ensures leads { IfOk result (λ next. LeadsOn (limits self.old) (is_place self.old)
            (end self.old) (here self.old) next) }
        ensures here { IfOk result (λ next. IfSome next (λ next. here self.new ≡ next)) }
        ensures ready { IfOk result (λ next. IfSome next (λ _. IsReady self.new)) }
        ensures same_limits { IfOk result (λ _. limits self.new ≡ limits self.old) }
        ensures same_places { IfOk result (λ _. is_place self.new ≡ is_place self.old) }
        ensures same_end { IfOk result (λ _. end self.new ≡ end self.old) }
        ensures cause { IfErr result (λ refusal. refusal ≡ OutOfMemory) };
}
