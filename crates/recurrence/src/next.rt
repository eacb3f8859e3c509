//! The lesser of two options, and a number if it is next.

ghost use Rattle.std.specs.Prelude.{◌≡◌, ◌==◌, ℕ};
ghost use Rattle.recurrence.specs.ByCases.Sooner.{sooner};
ghost use Rattle.recurrence.specs.ByCases.Next.{IsNext};

/// Returns a second at which a charging profile's limit can change next, if it is later than
/// another.
pub(crate) fn later(number: u64, than: u64) -> Option<u64>
    ensures next { IsNext (λ (k : ℕ). k == number) than result }
{
    if than < number { Some(number) } else { None }
}

/// Returns the lesser of two options, or the only one.
pub fn sooner<T: Ord + Drop>(a: Option<T>, b: Option<T>) -> Option<T>
    ensures { result ≡ sooner T.cmp a b }
{
    match (a, b) {
        (None, b) => b,
        (a, None) => a,
        (Some(m), Some(n)) => Some(m.min(n)),
    }
}
