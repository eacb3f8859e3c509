//! The names of the fields of payloads.
ghost use Rattle.std.specs.Prelude.{◌≡◌};
ghost use Rattle.messages.specs.FieldName.{fault_field_text, field_name};

/// A field of a payload, by its name in OCPP.
#[derive(Clone, Copy, PartialEq, Eq)]
pub enum FieldName {
    ChargingProfile,
    ChargingProfileId,
    ChargingProfileKind,
    ChargingProfilePurpose,
    ChargingRateUnit,
    ChargingSchedule,
    ChargingSchedulePeriod,
    ConnectorId,
    CsChargingProfiles,
    Duration,
    Id,
    IdTag,
    Limit,
    MeterStart,
    MinChargingRate,
    NumberPhases,
    RecurrencyKind,
    ScheduleStart,
    StackLevel,
    StartPeriod,
    StartSchedule,
    Status,
    Timestamp,
    TransactionId,
    ValidFrom,
    ValidTo,
}

impl FieldName {
    /// Returns the name as payloads have it.
    pub fn text(self) -> &'static str
        ensures read { result.now ≡ field_name self }
        ensures written { result.now ≡ fault_field_text self }
    {
        // The contract has two tables, so that definitions of reading and writing share nothing.
        match self {
            FieldName::ChargingProfile => "chargingProfile",
            FieldName::ChargingProfileId => "chargingProfileId",
            FieldName::ChargingProfileKind => "chargingProfileKind",
            FieldName::ChargingProfilePurpose => "chargingProfilePurpose",
            FieldName::ChargingRateUnit => "chargingRateUnit",
            FieldName::ChargingSchedule => "chargingSchedule",
            FieldName::ChargingSchedulePeriod => "chargingSchedulePeriod",
            FieldName::ConnectorId => "connectorId",
            FieldName::CsChargingProfiles => "csChargingProfiles",
            FieldName::Duration => "duration",
            FieldName::Id => "id",
            FieldName::IdTag => "idTag",
            FieldName::Limit => "limit",
            FieldName::MeterStart => "meterStart",
            FieldName::MinChargingRate => "minChargingRate",
            FieldName::NumberPhases => "numberPhases",
            FieldName::RecurrencyKind => "recurrencyKind",
            FieldName::ScheduleStart => "scheduleStart",
            FieldName::StackLevel => "stackLevel",
            FieldName::StartPeriod => "startPeriod",
            FieldName::StartSchedule => "startSchedule",
            FieldName::Status => "status",
            FieldName::Timestamp => "timestamp",
            FieldName::TransactionId => "transactionId",
            FieldName::ValidFrom => "validFrom",
            FieldName::ValidTo => "validTo",
        }
    }
}
