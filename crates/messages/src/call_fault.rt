//! The faults of a CALL that are answered with a CALLERROR.
ghost use Rattle.std.specs.Prelude.{◌≡◌};
ghost use Rattle.messages.specs.CallFault.{fault_code, fault_description, refused_code};

use crate::field_name::FieldName;
use ocpp_scalars::Refusal;
use std::alloc::{AllocError, AllocFailed};

/// The reason why a CALL is answered with a CALLERROR (OCPP-J 1.6, 4.2.3).
#[derive(Clone, Copy, PartialEq, Eq)]
pub enum CallFault {
    /// The action or the payload is malformed (`ocppj_frame::FrameFault::Formation`).
    FormationViolation,
    /// The action isn't known, or is one of the other side.
    NotImplemented,
    /// A required field is absent, or a required list is empty.
    OccurenceConstraintViolation(FieldName),
    /// A field is of the wrong JSON kind.
    TypeConstraintViolation(FieldName),
    /// A field's value is out of bounds, or isn't of the required form.
    PropertyConstraintViolation(FieldName),
    /// A ClearChargingProfile, StartTransaction or StopTransaction is refused, or memory ran out.
    Refused(Refusal),
}

impl CallFault {
    /// Returns the error code.
    pub fn code(self) -> &'static str
        ensures { result.now ≡ fault_code self }
    {
        // Spelled as in OCPP-J 1.6, 4.2.3, which has `Occurence` with one r.
        match self {
            CallFault::FormationViolation => "FormationViolation",
            CallFault::NotImplemented => "NotImplemented",
            CallFault::OccurenceConstraintViolation(_) => "OccurenceConstraintViolation",
            CallFault::TypeConstraintViolation(_) => "TypeConstraintViolation",
            CallFault::PropertyConstraintViolation(_) => "PropertyConstraintViolation",
            CallFault::Refused(refusal) => refused_code(refusal),
        }
    }

    /// Returns the error description: the name of the field or of the refusal, if the fault has
    /// one.
    pub fn description(self) -> &'static str
        ensures { result.now ≡ fault_description self }
    {
        match self {
            CallFault::FormationViolation | CallFault::NotImplemented => "",
            CallFault::OccurenceConstraintViolation(name)
            | CallFault::TypeConstraintViolation(name)
            | CallFault::PropertyConstraintViolation(name) => name.text(),
            CallFault::Refused(refusal) => refusal.name(),
        }
    }
}

/// Returns the errorCode of the CALLERROR (OCPP-J 1.6, 4.2.3) with which the central system answers
/// a refused ClearChargingProfile, StartTransaction or StopTransaction.
fn refused_code(refusal: Refusal) -> &'static str
    ensures { result.now ≡ refused_code refusal }
{
    match refusal {
        // Only a StartTransaction is refused for this: its connectorId isn't a connector of the
        // point.
        Refusal::UnknownConnector => "PropertyConstraintViolation",
        _ => "InternalError",
    }
}

impl From<AllocError> for CallFault {
    ghost use Rattle.ocpp_scalars.specs.declared.refusal.Refusal.{Refusal};
    ghost use Rattle.messages.specs.declared.call_fault.CallFault.{CallFault};

    ghost from_gives = { λ _ r. r ≡ CallFault.Refused Refusal.OutOfMemory };

    fn from(_error: AllocError) -> CallFault {
        CallFault::Refused(Refusal::OutOfMemory)
    }
}

impl<T: Drop> From<AllocFailed<T>> for CallFault {
    ghost use Rattle.ocpp_scalars.specs.declared.refusal.Refusal.{Refusal};
    ghost use Rattle.messages.specs.declared.call_fault.CallFault.{CallFault};

    ghost from_gives = { λ _ r. r ≡ CallFault.Refused Refusal.OutOfMemory };

    fn from(_error: AllocFailed<T>) -> CallFault {
        CallFault::Refused(Refusal::OutOfMemory)
    }
}
