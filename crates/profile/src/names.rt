//! The names of a few fields' values in payloads.

ghost use Rattle.std.specs.Prelude.{◌≡◌, ℕ, List, Option, map};
ghost use Rattle.profile.specs.Names.{named_in, purpose_named, kind_named, recurrency_named, unit_named};

use crate::kind::{ProfileKind, Recurrency};
use crate::purpose::Purpose;
use crate::unit::Unit;

/// A value that payloads write as one of a few names, each accepted exactly as written.
pub trait Named {
    /// The value of a name.
    ghost named: { List ℕ → Option Self };

    /// Returns the value that OCPP payloads write as this name, such as a chargingProfilePurpose,
    /// or `None` if no value has it.
    fn named(text: &str) -> Option<Self>
        ensures { result ≡ named text.now };
}

const PURPOSES: [(&str, Purpose); 3] = [
    ("ChargePointMaxProfile", Purpose::ChargePointMaxProfile),
    ("TxDefaultProfile", Purpose::TxDefaultProfile),
    ("TxProfile", Purpose::TxProfile),
];

const KINDS: [(&str, ProfileKind); 3] = [
    ("Absolute", ProfileKind::Absolute),
    ("Recurring", ProfileKind::Recurring),
    ("Relative", ProfileKind::Relative),
];

const RECURRENCIES: [(&str, Recurrency); 2] = [
    ("Daily", Recurrency::Daily),
    ("Weekly", Recurrency::Weekly),
];

const UNITS: [(&str, Unit); 2] = [("A", Unit::A), ("W", Unit::W)];

impl Named for Purpose {
    ghost named = { purpose_named };

    fn named(text: &str) -> Option<Purpose> {
        named_in(&PURPOSES, text)
    }
}

impl Named for ProfileKind {
    ghost named = { kind_named };

    fn named(text: &str) -> Option<ProfileKind> {
        named_in(&KINDS, text)
    }
}

impl Named for Recurrency {
    ghost named = { recurrency_named };

    fn named(text: &str) -> Option<Recurrency> {
        named_in(&RECURRENCIES, text)
    }
}

impl Named for Unit {
    ghost named = { unit_named };

    fn named(text: &str) -> Option<Unit> {
        named_in(&UNITS, text)
    }
}

/// Returns the value of a name in a table of names and values, or `None` if the table lacks it.
pub fn named_in<T: Copy>(table: &[(&str, T)], text: &str) -> Option<T>
    ensures { result ≡ named_in (map (λ row. (row.0.now, row.1)) table.now) text.now }
{
    for (name, value) in table {
        if text == *name {
            return Some(*value);
        }
    }
    None
}
