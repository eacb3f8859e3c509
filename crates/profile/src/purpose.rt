//! The purpose of a profile.

ghost use Rattle.std.specs.Prelude.{◌≡◌};
ghost use Rattle.profile.specs.Purpose.{transaction_of};

/// The purpose of a charging profile (chapter 7, ChargingProfilePurposeType).
#[derive(Clone, Copy, PartialEq, Eq)]
pub enum Purpose {
    /// Is at connector 0 and bounds the whole charge point.
    ChargePointMaxProfile,
    /// Bounds a connector at seconds at which no TxProfile has a limit.
    TxDefaultProfile,
    /// Bounds a connector during its transaction.
    TxProfile,
}

impl Purpose {
    /// Returns the transactionId that a profile of this purpose keeps.
    pub fn transaction_of(self, transaction: Option<i32>) -> Option<i32>
        ensures { result ≡ transaction_of self transaction }
    {
        match self {
            Purpose::TxProfile => transaction,
            Purpose::ChargePointMaxProfile | Purpose::TxDefaultProfile => None,
        }
    }
}
