//! The law of the greatest of a list, which the definitions of limits cite.

ghost use Rattle.std.specs.Prelude.{◌≡◌, ◌↔◌, ℕ, List, Some, None, []};
ghost use Rattle.profile.specs.Greatest.{IsGreatest, greatest};

/// The law that `greatest` of a list by a key is the first element with the greatest key, and that
/// every list but the empty one has it.
pub fn greatest_is_greatest<T>()
    ensures element { (key : T → ℕ) (xs : List T) (x : T)
        → (greatest key xs ≡ Some x) ↔ IsGreatest key xs x }
    ensures none { (key : T → ℕ) (xs : List T) → (greatest key xs ≡ None) ↔ (xs ≡ []) }
{}
