//! Tables of fields with the kinds of their values, in the order of the checks.

ghost use Rattle.std.specs.Prelude.{◌≡◌};
ghost use Rattle.messages.specs.FieldRow.{fields_in, kind_of_row, name_of_row};

use crate::field_name::FieldName::{
    self, ChargingProfileId, ChargingProfileKind, ChargingProfilePurpose, ChargingRateUnit,
    ChargingSchedule, ChargingSchedulePeriod, Duration, Limit, MinChargingRate, NumberPhases,
    RecurrencyKind, StackLevel, StartPeriod, StartSchedule, TransactionId, ValidFrom, ValidTo,
};
use FieldKind::{
    KindName, Object, Objects, PurposeName, RecurrencyName, Tenths, Time, UnitName, Whole,
    WholeFromZero,
};
use FieldRow::{Optional, Required};

/// The required kind of a field's value.
#[derive(Clone, Copy, PartialEq, Eq)]
pub enum FieldKind {
    /// A whole number of 32 bits.
    Whole,
    /// A whole number of 32 bits that isn't below 0.
    WholeFromZero,
    /// A limit, with at most one decimal.
    Tenths,
    /// An instant.
    Time,
    /// A text of at most 20 characters (chapter 7, IdToken).
    IdToken,
    /// A name of ChargingProfilePurposeType.
    PurposeName,
    /// A name of ChargingProfileKindType.
    KindName,
    /// A name of RecurrencyKindType.
    RecurrencyName,
    /// A name of ChargingRateUnitType.
    UnitName,
    /// An object of this kind.
    Object(ObjectKind),
    /// A list of such objects; an empty one counts as absent.
    Objects(ObjectKind),
}

/// An object inside a payload (chapter 7).
#[derive(Clone, Copy, PartialEq, Eq)]
pub enum ObjectKind {
    /// ChargingProfile.
    Profile,
    /// ChargingSchedule.
    Schedule,
    /// ChargingSchedulePeriod.
    Period,
}

/// A field of an object, with the required kind of its value.
#[derive(Clone, Copy, PartialEq, Eq)]
pub enum FieldRow {
    /// It must be present.
    Required(FieldName, FieldKind),
    /// It may be absent.
    Optional(FieldName, FieldKind),
}

impl FieldRow {
    /// Returns the field's name.
    pub fn name(self) -> FieldName
        ensures { result ≡ name_of_row self }
    {
        match self {
            Required(name, _) | Optional(name, _) => name,
        }
    }

    /// Returns the required kind of its value.
    pub fn kind(self) -> FieldKind
        ensures { result ≡ kind_of_row self }
    {
        match self {
            Required(_, kind) | Optional(_, kind) => kind,
        }
    }
}

/// Returns the fields that are read of an object inside a payload, in the order of the checks.
pub fn fields_in(object: ObjectKind) -> &'static [FieldRow]
    ensures { result.now ≡ fields_in object }
{
    match object {
        ObjectKind::Profile => &[
            Required(ChargingProfileId, Whole),
            Optional(TransactionId, Whole),
            Required(StackLevel, WholeFromZero),
            Required(ChargingProfilePurpose, PurposeName),
            Required(ChargingProfileKind, KindName),
            Optional(RecurrencyKind, RecurrencyName),
            Optional(ValidFrom, Time),
            Optional(ValidTo, Time),
            Required(ChargingSchedule, Object(ObjectKind::Schedule)),
        ],
        ObjectKind::Schedule => &[
            Optional(Duration, WholeFromZero),
            Optional(StartSchedule, Time),
            Required(ChargingRateUnit, UnitName),
            Required(ChargingSchedulePeriod, Objects(ObjectKind::Period)),
            Optional(MinChargingRate, Tenths),
        ],
        ObjectKind::Period => &[
            Required(StartPeriod, WholeFromZero),
            Required(Limit, Tenths),
            Optional(NumberPhases, WholeFromZero),
        ],
    }
}
