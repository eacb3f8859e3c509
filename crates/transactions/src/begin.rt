//! The fields of a StartTransaction.

ghost use Rattle.std.specs.Prelude.{◌≡◌, ◌↔◌, IsTrue, IfOk};
ghost use Rattle.std.specs.Str.{str_eq_ignore_ascii_case};
ghost use Rattle.transactions.specs.Begin.{is_repeat};

use ocpp_scalars::{IdTag, Instant};
use std::alloc::{AllocError, Global};

/// The fields of a StartTransaction (chapter 6, StartTransaction.req).
#[derive(Drop)]
pub struct Begin {
    /// idTag: the identifier that starts the transaction.
    pub id_tag: IdTag,
    /// meterStart, in Wh.
    pub meter_start: i32,
    pub timestamp: Instant,
}

impl Begin {
    /// Whether this StartTransaction is a retransmission of an earlier one: meterStart and
    /// timestamp are equal, and so is idTag, in which the case of ASCII letters doesn't count.
    pub fn is_repeat_of(&self, earlier: &Begin) -> bool
        ensures { result ≡ is_repeat self.now earlier.now }
    {
        // By these fields and not by its message id: a point may use a new id for each try.
        self.has_tag_of(earlier)
            && self.meter_start == earlier.meter_start
            && self.timestamp == earlier.timestamp
    }

    /// Whether a charge point's StartTransaction has the idTag of an earlier one, of which it may
    /// be a retransmission. The case of ASCII letters doesn't count.
    fn has_tag_of(&self, earlier: &Begin) -> bool
        ensures { result ≡ str_eq_ignore_ascii_case self.now.id_tag earlier.now.id_tag }
    {
        self.id_tag
            .as_str()
            .eq_ignore_ascii_case(earlier.id_tag.as_str())
    }

    /// Returns a copy.
    pub fn copy(&self, alloc: Global) -> Result<Begin, AllocError>
        ensures { IfOk result (λ copy. copy ≡ self.now) }
    {
        Ok(Begin {
            id_tag: self.id_tag.copy(alloc)?,
            meter_start: self.meter_start,
            timestamp: self.timestamp,
        })
    }

    /// Whether two are equal; the case of idTags counts.
    pub fn same(&self, other: &Begin) -> bool
        ensures { IsTrue result ↔ (self.now ≡ other.now) }
    {
        self.id_tag.as_str() == other.id_tag.as_str()
            && self.meter_start == other.meter_start
            && self.timestamp == other.timestamp
    }
}
