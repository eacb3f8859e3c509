//! The queue of rows that wait for their next places.

ghost use Rattle.std.specs.Prelude.{◌≡◌, ◌≤◌, ◌<◌, [], ◌∷◌, drop, length, nat_eq, IfOk, IfSome, IfNone, IsPermutation};
ghost use Rattle.std.specs.List.{AllByRecursion};
ghost use Rattle.std.specs.Ordering.{nat_cmp, on, as_partial_cmp};
ghost use Rattle.std.specs.Cmp.{partial_order_from_own_ties};
ghost use Rattle.std.specs.Cmp.Rules.{comparing};
ghost use Rattle.std.proofs.Common.{rules, refl};

use ocpp_scalars::Instant;
use std::alloc::{AllocError, Global};
use std::cmp::Ordering;
use std::collections::BinaryHeap;
use std::collections::binary_heap::PeekMut;
use std::marker::Model;

/// A row of a bound, and the instant at which it is due.
#[derive(Clone, Copy)]
pub(crate) struct Due {
    pub instant: Instant,
    pub bound: usize,
    pub row: usize,
}

// Only the instants are compared, since the heap compares at each turn; the soonest is the
// greatest. The order of rows that are due at the same instant makes no difference.
impl PartialEq for Due {
    ghost eq = { on (λ due. due.instant) nat_eq };

    ghost laws = { Prim.search (comparing, rules) };

    fn eq(&self, other: &Due) -> bool {
        self.instant == other.instant
    }
}

impl Eq for Due {
    ghost laws = { Prim.search (comparing, rules) };
}

impl PartialOrd for Due {
    ghost partial_cmp = { as_partial_cmp (λ x y. nat_cmp y.instant x.instant) };

    ghost laws = { partial_order_from_own_ties
        (Prim.search (comparing, rules)) (Prim.search (comparing, rules)) };

    fn partial_cmp(&self, other: &Due) -> Option<Ordering> {
        Some(self.cmp(other))
    }
}

impl Ord for Due {
    ghost cmp = { λ x y. nat_cmp y.instant x.instant };

    ghost total = { Prim.search (comparing, rules) };

    ghost matches_partial_cmp = { λ x y. refl };

    ghost matches_eq = { Prim.search (comparing, rules) };

    fn cmp(&self, other: &Due) -> Ordering {
        other.instant.cmp(&self.instant)
    }
}

/// Rows of bounds, each with the instant at which it is due: the soonest comes first.
#[derive(Drop)]
pub(crate) struct Queue {
    heap: BinaryHeap<Due>,
}

impl Model for Queue {
    ghost use Rattle.std.specs.Prelude.{List};
    ghost use Rattle.std.specs.Ordering.{nat_cmp};
    ghost use Rattle.std.specs.BinaryHeap.{IsHeap, heap_items};
    ghost use Rattle.sweep_compiler.specs.ByCases.Queue.{Due};

    ghost Value = { List Due };

    ghost view = { λ q. heap_items q.heap };

    ghost invariant = { λ q. IsHeap
        (λ x y. nat_cmp y.instant x.instant) (heap_items q.heap) };
}

impl Queue {
    ghost use Rattle.sweep_compiler.specs.ByCases.Queue.{Due, IsSoonest, IsSoonestOf};

    /// Makes an empty queue of the installed profiles that wait for their next places (changes of
    /// their limits) in the schedule compiler's sweep. Allocates nothing.
    pub(crate) fn new(alloc: Global) -> Queue
        ensures { result ≡ [] }
    {
        Queue {
            heap: BinaryHeap::new(alloc),
        }
    }

    /// Adds an installed profile to the queue of the schedule compiler's sweep, with the instant of
    /// its next place (change of its limit).
    pub(crate) fn push(&mut self, due: Due) -> Result<(), AllocError>
        ensures { IfOk result (λ _. IsPermutation (due ∷ self.old) self.new) }
    {
        self.heap.push(due)?;
        Ok(())
    }

    /// Returns the earliest instant at which an installed profile in the queue is due: the next
    /// place of the schedule compiler's sweep.
    pub(crate) fn soonest(&self) -> Option<Instant>
        ensures { IsSoonest self.now result }
    {
        match self.heap.peek() {
            Some(first) => Some(first.instant),
            None => None,
        }
    }

    /// Returns the installed profile that is due the soonest in the queue of the schedule
    /// compiler's sweep.
    pub(crate) fn first(&self) -> Option<Due>
        ensures empty { IfNone result (self.now ≡ []) }
        ensures first { IfSome result (λ due. self.now ≡ due ∷ drop 1 self.now) }
        ensures soonest { IfSome result (λ due.
            AllByRecursion (λ (other : Due). due.instant ≤ other.instant) self.now) }
    {
        match self.heap.peek() {
            Some(first) => Some(*first),
            None => None,
        }
    }

    /// Replaces the installed profile that is due the soonest in the queue of the schedule
    /// compiler's sweep. Allocates nothing.
    pub(crate) fn replace_first(&mut self, due: Due)
        requires some { 0 < length self.old }
        ensures { IsPermutation (due ∷ drop 1 self.old) self.new }
    {
        // In place: a pop and a push would restore the heap twice at each place.
        let mut first = self.heap.peek_mut().unwrap();
        *first = due;
    }

    /// Removes the installed profile that is due the soonest from the queue of the schedule
    /// compiler's sweep.
    pub(crate) fn remove_first(&mut self)
        requires some { 0 < length self.old }
        ensures { IsPermutation (drop 1 self.old) self.new }
    {
        let first = self.heap.peek_mut().unwrap();
        PeekMut::pop(first);
    }
}
