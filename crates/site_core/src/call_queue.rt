//! The calls of an outbox, in their order.

ghost use Rattle.std.specs.Prelude.{◌≡◌, ◌↔◌, ◌+◌, ◌<◌, ◌≤◌, ◌++◌, ◌∷◌, [], IfOk, IfSome, IsSome, OnOk, length, drop, slice_index_or};
ghost use Rattle.site_core.specs.Limits.{max_calls};

use messages::CallBody;
use std::alloc::{AllocError, Global};
use std::collections::LinkedList;
use std::marker::Model;
use std::sync::Arc;

/// Calls that wait one after another. Gathered ones are shared with copies made since, so that a
/// copy needs no memory for them.
#[derive(Drop)]
pub(crate) struct CallQueue {
    /// The calls up to the last gathering.
    gathered: Arc<Vec<CallBody>>,
    /// The number of gathered calls that have left.
    left: usize,
    /// The calls since then.
    // A linked list takes a node made before; a `Vec` could fail to grow after the book changed.
    later: LinkedList<CallBody>,
}

// Clauses see the calls that wait.
impl Model for CallQueue {
    ghost use Rattle.std.specs.Prelude.{List, ◌≤◌, ◌++◌, length, drop};
    ghost use Rattle.std.specs.Arc.{arc_value};
    ghost use Rattle.messages.specs.declared.call.CallBody.{CallBody};
    ghost use Rattle.site_core.specs.Limits.{max_calls};

    ghost Value = { List CallBody };

    ghost view = { λ q. drop q.left (arc_value q.gathered).items ++ q.later };

    ghost invariant = { λ q. (q.left ≤ length (arc_value q.gathered).items)
        × (length (drop q.left (arc_value q.gathered).items ++ q.later) ≤ max_calls) };
}

impl CallQueue {
    /// Makes a queue of one call.
    pub fn new(alloc: Global, body: CallBody) -> Result<CallQueue, AllocError>
        ensures { IfOk result (λ queue. queue ≡ body ∷ []) }
    {
        let mut later = LinkedList::new(alloc);
        later.push_back(body)?;
        Ok(CallQueue {
            gathered: Arc::new(alloc, Vec::new(alloc))?,
            left: 0,
            later,
        })
    }

    /// Copies the queue, sharing the gathered calls.
    pub fn copy(&self) -> Result<CallQueue, AllocError>
        ensures { IfOk result (λ copy. copy ≡ self.now) }
    {
        Ok(CallQueue {
            gathered: Arc::try_clone(&self.gathered)?,
            left: self.left,
            later: copy_of_bodies(&self.later)?,
        })
    }

    /// Returns the allocator of its memory.
    pub fn allocator(&self) -> Global {
        *self.later.allocator()
    }

    /// Returns the number of calls that wait.
    pub fn len(&self) -> usize
        ensures value { result ≡ length self.now }
        ensures few { length self.now ≤ max_calls }
    {
        self.gathered.len() - self.left + self.later.len()
    }

    /// Returns the first call.
    pub fn front(&self) -> Option<&CallBody>
        ensures variant { IsSome result ↔ (0 < length self.now) }
        ensures lookup { IfSome result (λ body. body.now ≡ slice_index_or self.now 0 body.now) }
    {
        if self.left < self.gathered.len() {
            Some(&self.gathered[self.left])
        } else {
            self.later.front()
        }
    }

    /// Moves calls behind the others. Allocates nothing.
    pub fn append(&mut self, mut more: LinkedList<CallBody>)
        requires { length self.old + length more ≤ max_calls }
        ensures { self.new ≡ self.old ++ more }
    {
        self.later.append(&mut more).unwrap();
    }

    /// Removes the first call. Allocates nothing.
    #[tactic(auto, using(crate::proofs::CallQueueLemmas::drop_first))]
    pub fn remove_first(&mut self)
        ensures { self.new ≡ drop 1 self.old }
    {
        if self.left < self.gathered.len() {
            self.left += 1;
        } else {
            drop(self.later.pop_front());
        }
    }

    /// Gathers the calls, so that copies share them, if there are new ones, or if more than half of
    /// the gathered ones have left. Without memory it does nothing. The calls stay the same.
    pub fn gather(&mut self)
        ensures { self.new ≡ self.old }
    {
        // Gathering copies all calls: without new ones, only once it frees more than it copies.
        if self.later.is_empty() && self.left <= self.gathered.len() - self.left {
            return;
        }
        let alloc = self.allocator();
        let Ok(bodies) = self.bodies(alloc) else {
            return;
        };
        let Ok(gathered) = Arc::new(alloc, bodies) else {
            return;
        };
        self.gathered = gathered;
        self.left = 0;
        self.later = LinkedList::new(alloc);
    }

    /// Copies all calls.
    pub fn bodies(&self, alloc: Global) -> Result<Vec<CallBody>, AllocError>
        ensures { IfOk result (λ bodies. bodies.items ≡ self.now) }
    {
        let mut bodies = Vec::with_capacity(alloc, self.len())?;
        copy_slice(alloc, &mut bodies, &self.gathered[self.left..])?;
        copy_list(alloc, &mut bodies, &self.later)?;
        Ok(bodies)
    }
}

/// Appends copies of unconfirmed calls to a charge point, which its outbox in the machine holds, to
/// a list. These are in the part of the outbox that its copies share.
fn copy_slice(
    alloc: Global,
    copies: &mut Vec<CallBody>,
    bodies: &[CallBody],
) -> Result<(), AllocError>
    ensures { OnOk result (copies.new.items ≡ copies.old.items ++ bodies.now) }
{
    for body in bodies {
        copies.push(body.copy(alloc)?)?;
    }
    Ok(())
}

/// Appends copies of unconfirmed calls to a charge point, which its outbox in the machine holds, to
/// a list. These are behind the part of the outbox that its copies share.
fn copy_list(
    alloc: Global,
    copies: &mut Vec<CallBody>,
    bodies: &LinkedList<CallBody>,
) -> Result<(), AllocError>
    ensures { OnOk result (copies.new.items ≡ copies.old.items ++ bodies.now) }
{
    for body in bodies.iter() {
        copies.push(body.copy(alloc)?)?;
    }
    Ok(())
}

/// Copies the calls to a charge point that are behind the part of its outbox that copies share, for
/// a copy of the machine's outbox.
fn copy_of_bodies(bodies: &LinkedList<CallBody>) -> Result<LinkedList<CallBody>, AllocError>
    ensures { IfOk result (λ copy. copy ≡ bodies.now) }
{
    let alloc = *bodies.allocator();
    let mut copies = LinkedList::new(alloc);
    for body in bodies.iter() {
        copies.push_back(body.copy(alloc)?)?;
    }
    Ok(copies)
}
