//! The identity of a charge point, as a step names it.

ghost use Rattle.std.specs.Prelude.{◌≡◌, IfOk, string_bytes};

use std::alloc::{AllocError, Global};
use std::marker::Model;

/// The identity of a charge point (OCPP-J 1.6, 3.1.1), as a step names it. The site may have no
/// point of it.
#[derive(Drop)]
pub struct PointId {
    text: String,
}

// Clauses see the identity's bytes.
impl Model for PointId {
    ghost use Rattle.std.specs.Prelude.{List, ℕ, string_bytes};

    ghost Value = { List ℕ };

    ghost view = { λ id. string_bytes id.text };
}

impl PointId {
    /// Takes a text as an identity.
    pub fn new(text: String) -> PointId
        ensures { result ≡ string_bytes text }
    {
        PointId { text }
    }

    /// Copies a text as an identity.
    pub fn copied(alloc: Global, text: &str) -> Result<PointId, AllocError>
        ensures { IfOk result (λ id. id ≡ text.now) }
    {
        Ok(PointId {
            text: String::from_str(alloc, text)?,
        })
    }

    /// Copies the identity.
    pub fn copy(&self, alloc: Global) -> Result<PointId, AllocError>
        ensures { IfOk result (λ copy. copy ≡ self.now) }
    {
        let copy = PointId::copied(alloc, self.as_str())?;
        Ok(copy)
    }

    /// Returns the text.
    pub fn as_str(&self) -> &str
        ensures { result.now ≡ self.now }
    {
        self.text.as_str()
    }
}
