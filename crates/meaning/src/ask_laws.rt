//! The law of requests, on a function that does nothing.

ghost use Rattle.std.specs.Prelude.{◌≡◌, ◌↔◌, ℕ, Some, None, Ok, Err};
ghost use Rattle.ocpp_scalars.specs.declared.refusal.Refusal.{Refusal};
ghost use Rattle.ocpp_scalars.specs.Causes.{IsFirstCause};
ghost use Rattle.meaning.specs.declared.ask.Ask.{Ask};
ghost use Rattle.meaning.specs.Ask.{IsAskOf, ask_causes, ask_of};

/// The law of requests. Numbers are refused by the first cause that holds. If none holds, they make
/// the request of these numbers.
pub fn asks()
    ensures refused { (connector start duration : ℕ) (refusal : Refusal)
        → (ask_of connector start duration ≡ Err refusal)
        ↔ IsFirstCause (ask_causes start duration) (Some refusal) }
    ensures made { (connector start duration : ℕ) (ask : Ask)
        → (ask_of connector start duration ≡ Ok ask)
        ↔ (IsFirstCause (ask_causes start duration) None × IsAskOf connector start duration ask) }
{}
