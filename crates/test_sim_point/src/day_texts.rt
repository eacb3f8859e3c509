//! Worked days of a simulated point, as texts. Each begins with its steps, a line each, and an
//! empty line. Then comes a line for each event.

/// Every step, with the replies of a central system, good and bad. The second stop is of a start
/// that the central system refused. The fourth is of a transaction that has ended, though the
/// central system answered its stop with an error. The fifth is of a start whose reply has no whole
/// number.
pub(crate) const EVERY_STEP: &str = r#"stop 1
heartbeat
start 0 x 1
start 3 x 1
start 1 a"b -100
start 2  0
stop 2
stop 1
stop 1
start 2 c 5
stop 2
heartbeat
stop 0

call | [2,"0","Heartbeat",{}]
call | -
< [3,"1",{}] | -
< [3,"00",{}] | -
< [7,"0"] | -
< [2] | -
call | -
< [3,"0",{"currentTime":"2025-01-01T00:00:00Z"}] | -
at 60 | -
call | [2,"1","StartTransaction",{"connectorId":1,"idTag":"a\"b","meterStart":-100,"timestamp":"2025-01-01T00:01:00Z"}]
< [3,"1",{"idTagInfo":{"status":"Accepted"},"transactionId":7}] | -
at 90 | -
call | [2,"2","StartTransaction",{"connectorId":2,"idTag":"","meterStart":0,"timestamp":"2025-01-01T00:01:30Z"}]
< [4,"2","InternalError","",{}] | -
call | [2,"3","StopTransaction",{"transactionId":7,"timestamp":"2025-01-01T00:01:30Z","meterStop":-100}]
at 100 | -
< [4,"3","InternalError","",{}] | -
call | [2,"4","StartTransaction",{"connectorId":2,"idTag":"c","meterStart":5,"timestamp":"2025-01-01T00:01:40Z"}]
< [3,"4",{"transactionId":"8"}] | -
call | [2,"5","Heartbeat",{}]
< [3,"5"] | -
call | -
< [3,"5"] | -"#;

/// A transaction with its profile, which ends with it; and another that takes its place.
pub(crate) const TRANSACTIONS: &str = r#"start 1 a 1
start 1 b 2
stop 1

< [2,"a","SetChargingProfile",{"connectorId":1,"csChargingProfiles":{"chargingProfileId":1,"stackLevel":0,"chargingProfilePurpose":"TxProfile","chargingProfileKind":"Relative","chargingSchedule":{"chargingRateUnit":"A","chargingSchedulePeriod":[{"startPeriod":0,"limit":8.1}]}}}] | [3,"a",{"status":"Rejected","reason":"NoTransaction"}]
call | [2,"0","StartTransaction",{"connectorId":1,"idTag":"a","meterStart":1,"timestamp":"2025-01-01T00:00:00Z"}]
< [3,"0",{"transactionId":7}] | -
< [2,"b","SetChargingProfile",{"connectorId":1,"csChargingProfiles":{"chargingProfileId":1,"transactionId":8,"stackLevel":0,"chargingProfilePurpose":"TxProfile","chargingProfileKind":"Relative","chargingSchedule":{"chargingRateUnit":"A","chargingSchedulePeriod":[{"startPeriod":0,"limit":8.1}]}}}] | [3,"b",{"status":"Rejected","reason":"OtherTransaction"}]
< [2,"c","SetChargingProfile",{"connectorId":1,"csChargingProfiles":{"chargingProfileId":1,"transactionId":7,"stackLevel":0,"chargingProfilePurpose":"TxProfile","chargingProfileKind":"Relative","chargingSchedule":{"chargingRateUnit":"A","chargingSchedulePeriod":[{"startPeriod":0,"limit":8.1},{"startPeriod":90,"limit":6.0}]}}}] | [3,"c",{"status":"Accepted"}]
at 60 | -
< [2,"d","GetCompositeSchedule",{"connectorId":1,"duration":60}] | [3,"d",{"status":"Accepted","connectorId":1,"scheduleStart":"2025-01-01T00:01:00Z","chargingSchedule":{"duration":60,"chargingRateUnit":"A","chargingSchedulePeriod":[{"startPeriod":0,"limit":8.1},{"startPeriod":30,"limit":6.0}]}}]
call | [2,"1","StartTransaction",{"connectorId":1,"idTag":"b","meterStart":2,"timestamp":"2025-01-01T00:01:00Z"}]
< [2,"e","GetCompositeSchedule",{"connectorId":1,"duration":1}] | [3,"e",{"status":"Accepted","connectorId":1,"scheduleStart":"2025-01-01T00:01:00Z","chargingSchedule":{"duration":1,"chargingRateUnit":"A","chargingSchedulePeriod":[{"startPeriod":0,"limit":8.1}]}}]
< [3,"1",{"transactionId":9}] | -
< [2,"f","GetCompositeSchedule",{"connectorId":1,"duration":1}] | [3,"f",{"status":"Accepted","connectorId":1,"scheduleStart":"2025-01-01T00:01:00Z","chargingSchedule":{"duration":1,"chargingRateUnit":"A","chargingSchedulePeriod":[{"startPeriod":0,"limit":16.0}]}}]
call | [2,"2","StopTransaction",{"transactionId":9,"timestamp":"2025-01-01T00:01:00Z","meterStop":2}]
< [3,"2",{}] | -
call | -"#;

/// Installs, clears and asks, with each refusal and fault that needs no transaction. Where two
/// causes hold, the first one is named.
pub(crate) const CALLS: &str = r#"

< [2,"a","SetChargingProfile",{"connectorId":3,"csChargingProfiles":{"chargingProfileId":1,"stackLevel":0,"chargingProfilePurpose":"ChargePointMaxProfile","chargingProfileKind":"Absolute","chargingSchedule":{"chargingRateUnit":"W","chargingSchedulePeriod":[{"startPeriod":0,"limit":10.0}]}}}] | [3,"a",{"status":"Rejected","reason":"UnknownConnector"}]
< [2,"b","SetChargingProfile",{"connectorId":2,"csChargingProfiles":{"chargingProfileId":1,"stackLevel":0,"chargingProfilePurpose":"ChargePointMaxProfile","chargingProfileKind":"Absolute","chargingSchedule":{"chargingRateUnit":"W","chargingSchedulePeriod":[{"startPeriod":0,"limit":10.0}]}}}] | [3,"b",{"status":"Rejected","reason":"MaxNotAtZero"}]
< [2,"c","SetChargingProfile",{"connectorId":0,"csChargingProfiles":{"chargingProfileId":1,"stackLevel":0,"chargingProfilePurpose":"TxProfile","chargingProfileKind":"Absolute","chargingSchedule":{"chargingRateUnit":"W","chargingSchedulePeriod":[{"startPeriod":0,"limit":10.0}]}}}] | [3,"c",{"status":"Rejected","reason":"TxAtZero"}]
< [2,"d","SetChargingProfile",{"connectorId":1,"csChargingProfiles":{"chargingProfileId":1,"stackLevel":0,"chargingProfilePurpose":"TxProfile","chargingProfileKind":"Absolute","chargingSchedule":{"chargingRateUnit":"W","chargingSchedulePeriod":[{"startPeriod":0,"limit":10.0}]}}}] | [3,"d",{"status":"Rejected","reason":"WrongUnit"}]
< [2,"e","SetChargingProfile",{"connectorId":3,"csChargingProfiles":{"chargingProfileId":1,"stackLevel":100,"chargingProfilePurpose":"TxProfile","chargingProfileKind":"Absolute","chargingSchedule":{"chargingRateUnit":"W","chargingSchedulePeriod":[{"startPeriod":0,"limit":10.0}]}}}] | [3,"e",{"status":"Rejected","reason":"LevelTooHigh"}]
< [2,"f","SetChargingProfile",{"connectorId":0,"csChargingProfiles":{"chargingProfileId":1,"stackLevel":0,"chargingProfilePurpose":"ChargePointMaxProfile","chargingProfileKind":"Absolute","chargingSchedule":{"startSchedule":"2025-01-01T00:00:00Z","chargingRateUnit":"A","chargingSchedulePeriod":[{"startPeriod":0,"limit":10.0}]}}}] | [3,"f",{"status":"Accepted"}]
< [2,"g","GetCompositeSchedule",{"connectorId":2,"duration":9,"chargingRateUnit":"A"}] | [3,"g",{"status":"Accepted","connectorId":2,"scheduleStart":"2025-01-01T00:00:00Z","chargingSchedule":{"duration":9,"chargingRateUnit":"A","chargingSchedulePeriod":[{"startPeriod":0,"limit":10.0}]}}]
< [2,"h","GetCompositeSchedule",{"connectorId":3,"duration":0,"chargingRateUnit":"W"}] | [3,"h",{"status":"Rejected","reason":"UnknownConnector"}]
< [2,"i","GetCompositeSchedule",{"connectorId":2,"duration":0,"chargingRateUnit":"W"}] | [3,"i",{"status":"Rejected","reason":"WrongUnit"}]
< [2,"j","GetCompositeSchedule",{"connectorId":2,"duration":2678401}] | [3,"j",{"status":"Rejected","reason":"BadDuration"}]
at 251666611199 | -
< [2,"k","GetCompositeSchedule",{"connectorId":2,"duration":2}] | [3,"k",{"status":"Rejected","reason":"PastCalendar"}]
at 0 | -
< [2,"l","ClearChargingProfile",{"id":2}] | [3,"l",{"status":"Unknown"}]
< [2,"m","ClearChargingProfile",{"id":1}] | [3,"m",{"status":"Accepted"}]
< [2,"n","ClearChargingProfile",{}] | [3,"n",{"status":"Unknown"}]
< [2,"o","GetCompositeSchedule",{"connectorId":2,"duration":9}] | [3,"o",{"status":"Accepted","connectorId":2,"scheduleStart":"2025-01-01T00:00:00Z","chargingSchedule":{"duration":9,"chargingRateUnit":"A","chargingSchedulePeriod":[{"startPeriod":0,"limit":16.0}]}}]
< [2,"p","GetCompositeSchedule",{"duration":-1}] | [4,"p","OccurenceConstraintViolation","connectorId",{}]
< [2,"q","GetCompositeSchedule",{"connectorId":1,"duration":"1"}] | [4,"q","TypeConstraintViolation","duration",{}]
< [2,"r","ClearChargingProfile",{"stackLevel":-1}] | [4,"r","PropertyConstraintViolation","stackLevel",{}]
< [2,"s","Heartbeat",{}] | [4,"s","NotImplemented","",{}]
< [2,"t","StopTransaction",{"transactionId":"x"}] | [4,"t","NotImplemented","",{}]
< [2,"u","Reset",{}] | [4,"u","NotImplemented","",{}]
< [2,"x","AuditPoint",{"connectorId":1,"duration":60}] | [4,"x","NotImplemented","",{}]
< [2,"y","PointStatus",{}] | [4,"y","NotImplemented","",{}]
< [2,"v","GetCompositeSchedule",7] | [4,"v","FormationViolation","",{}]
< [2,"w"] | [4,"w","FormationViolation","",{}]"#;

/// The transaction has the profile from the reply that brings its number until its end. In between
/// a profile for another transaction is rejected.
pub(crate) const REMOTE_START: &str = r#"stop 1

< [2,"a","RemoteStartTransaction",{"connectorId":1,"idTag":"T1","chargingProfile":{"chargingProfileId":5,"stackLevel":0,"chargingProfilePurpose":"TxProfile","chargingProfileKind":"Relative","chargingSchedule":{"chargingRateUnit":"A","chargingSchedulePeriod":[{"startPeriod":0,"limit":6.0}]}}}] | [3,"a",{"status":"Accepted"}]
at 10 | -
call | [2,"0","StartTransaction",{"connectorId":1,"idTag":"T1","meterStart":0,"timestamp":"2025-01-01T00:00:10Z"}]
< [2,"b","GetCompositeSchedule",{"connectorId":1,"duration":10}] | [3,"b",{"status":"Accepted","connectorId":1,"scheduleStart":"2025-01-01T00:00:10Z","chargingSchedule":{"duration":10,"chargingRateUnit":"A","chargingSchedulePeriod":[{"startPeriod":0,"limit":16.0}]}}]
at 15 | -
< [3,"0",{"idTagInfo":{"status":"Accepted"},"transactionId":1}] | -
< [2,"c","GetCompositeSchedule",{"connectorId":1,"duration":10}] | [3,"c",{"status":"Accepted","connectorId":1,"scheduleStart":"2025-01-01T00:00:15Z","chargingSchedule":{"duration":10,"chargingRateUnit":"A","chargingSchedulePeriod":[{"startPeriod":0,"limit":6.0}]}}]
< [2,"d","SetChargingProfile",{"connectorId":1,"csChargingProfiles":{"chargingProfileId":6,"transactionId":2,"stackLevel":0,"chargingProfilePurpose":"TxProfile","chargingProfileKind":"Relative","chargingSchedule":{"chargingRateUnit":"A","chargingSchedulePeriod":[{"startPeriod":0,"limit":6.0}]}}}] | [3,"d",{"status":"Rejected","reason":"OtherTransaction"}]
call | [2,"1","StopTransaction",{"transactionId":1,"timestamp":"2025-01-01T00:00:15Z","meterStop":0}]
< [3,"1",{}] | -
< [2,"e","GetCompositeSchedule",{"connectorId":1,"duration":10}] | [3,"e",{"status":"Accepted","connectorId":1,"scheduleStart":"2025-01-01T00:00:15Z","chargingSchedule":{"duration":10,"chargingRateUnit":"A","chargingSchedulePeriod":[{"startPeriod":0,"limit":16.0}]}}]
< [2,"f","ClearChargingProfile",{"id":5}] | [3,"f",{"status":"Unknown"}]
call | -"#;

/// The profile's second period begins a minute after the call. The start at connector 2 waits.
pub(crate) const BEFORE_OTHER_STEPS: &str = r#"heartbeat
start 2 own 7

call | [2,"0","Heartbeat",{}]
< [2,"a","RemoteStartTransaction",{"connectorId":1,"idTag":"T1","chargingProfile":{"chargingProfileId":5,"stackLevel":0,"chargingProfilePurpose":"TxProfile","chargingProfileKind":"Relative","chargingSchedule":{"chargingRateUnit":"A","chargingSchedulePeriod":[{"startPeriod":0,"limit":6.0},{"startPeriod":60,"limit":8.0}]}}}] | [3,"a",{"status":"Accepted"}]
call | -
at 20 | -
< [3,"0",{"currentTime":"2025-01-01T00:00:20Z"}] | -
call | [2,"1","StartTransaction",{"connectorId":1,"idTag":"T1","meterStart":0,"timestamp":"2025-01-01T00:00:20Z"}]
at 30 | -
< [3,"1",{"idTagInfo":{"status":"Accepted"},"transactionId":4}] | -
< [2,"b","GetCompositeSchedule",{"connectorId":1,"duration":60}] | [3,"b",{"status":"Accepted","connectorId":1,"scheduleStart":"2025-01-01T00:00:30Z","chargingSchedule":{"duration":60,"chargingRateUnit":"A","chargingSchedulePeriod":[{"startPeriod":0,"limit":6.0},{"startPeriod":50,"limit":8.0}]}}]
call | [2,"2","StartTransaction",{"connectorId":2,"idTag":"own","meterStart":7,"timestamp":"2025-01-01T00:00:30Z"}]
< [3,"2",{"idTagInfo":{"status":"Accepted"},"transactionId":5}] | -
< [2,"c","GetCompositeSchedule",{"connectorId":2,"duration":60}] | [3,"c",{"status":"Accepted","connectorId":2,"scheduleStart":"2025-01-01T00:00:30Z","chargingSchedule":{"duration":60,"chargingRateUnit":"A","chargingSchedulePeriod":[{"startPeriod":0,"limit":16.0}]}}]
call | -"#;

/// Connectors that it lacks, profiles that it can't keep, fields that can't be read, and a
/// transaction that is active, also while its stop isn't answered.
pub(crate) const REJECTED_STARTS: &str = r#"start 1 own 7
stop 1

< [2,"a","RemoteStartTransaction",{"connectorId":0,"idTag":"T1"}] | [3,"a",{"status":"Rejected"}]
< [2,"b","RemoteStartTransaction",{"connectorId":3,"idTag":"T1"}] | [3,"b",{"status":"Rejected"}]
< [2,"c","RemoteStartTransaction",{"connectorId":9,"idTag":"T1","chargingProfile":{"chargingProfileId":5,"stackLevel":0,"chargingProfilePurpose":"TxProfile","chargingProfileKind":"Relative","chargingSchedule":{"chargingRateUnit":"A","chargingSchedulePeriod":[{"startPeriod":0,"limit":6.0}]}}}] | [3,"c",{"status":"Rejected"}]
< [2,"d","RemoteStartTransaction",{"connectorId":1,"idTag":"T1","chargingProfile":{"chargingProfileId":5,"stackLevel":0,"chargingProfilePurpose":"TxDefaultProfile","chargingProfileKind":"Relative","chargingSchedule":{"chargingRateUnit":"A","chargingSchedulePeriod":[{"startPeriod":0,"limit":6.0}]}}}] | [3,"d",{"status":"Rejected"}]
< [2,"e","RemoteStartTransaction",{"connectorId":1,"idTag":"T1","chargingProfile":{"chargingProfileId":5,"stackLevel":0,"chargingProfilePurpose":"TxProfile","chargingProfileKind":"Relative","chargingSchedule":{"chargingRateUnit":"W","chargingSchedulePeriod":[{"startPeriod":0,"limit":6.0}]}}}] | [3,"e",{"status":"Rejected"}]
< [2,"f","RemoteStartTransaction",{"connectorId":1,"idTag":"T1","chargingProfile":{"chargingProfileId":5,"stackLevel":100,"chargingProfilePurpose":"TxProfile","chargingProfileKind":"Relative","chargingSchedule":{"chargingRateUnit":"A","chargingSchedulePeriod":[{"startPeriod":0,"limit":6.0}]}}}] | [3,"f",{"status":"Rejected"}]
< [2,"g","RemoteStartTransaction",{"connectorId":1,"idTag":"T1","chargingProfile":{"chargingProfileId":5,"stackLevel":0,"chargingProfilePurpose":"TxProfile","chargingProfileKind":"Relative","chargingSchedule":{"chargingRateUnit":"A","chargingSchedulePeriod":[{"startPeriod":0,"limit":6.0},{"startPeriod":0,"limit":8.0}]}}}] | [3,"g",{"status":"Rejected"}]
< [2,"h","RemoteStartTransaction",{"idTag":"T1"}] | [4,"h","OccurenceConstraintViolation","connectorId",{}]
< [2,"i","RemoteStartTransaction",{"connectorId":1}] | [4,"i","OccurenceConstraintViolation","idTag",{}]
< [2,"j","RemoteStartTransaction",{"connectorId":1,"idTag":"T1","chargingProfile":5}] | [4,"j","TypeConstraintViolation","chargingProfile",{}]
call | [2,"0","StartTransaction",{"connectorId":1,"idTag":"own","meterStart":7,"timestamp":"2025-01-01T00:00:00Z"}]
< [3,"0",{"idTagInfo":{"status":"Accepted"},"transactionId":1}] | -
< [2,"k","RemoteStartTransaction",{"connectorId":1,"idTag":"T1"}] | [3,"k",{"status":"Rejected"}]
< [2,"l","RemoteStartTransaction",{"connectorId":1,"idTag":"T1","chargingProfile":{"chargingProfileId":5,"stackLevel":0,"chargingProfilePurpose":"TxProfile","chargingProfileKind":"Relative","chargingSchedule":{"chargingRateUnit":"A","chargingSchedulePeriod":[{"startPeriod":0,"limit":6.0}]}}}] | [3,"l",{"status":"Rejected"}]
call | [2,"1","StopTransaction",{"transactionId":1,"timestamp":"2025-01-01T00:00:00Z","meterStop":7}]
< [2,"m","RemoteStartTransaction",{"connectorId":1,"idTag":"T1"}] | [3,"m",{"status":"Rejected"}]
< [3,"1",{}] | -
call | -
< [2,"n","RemoteStartTransaction",{"connectorId":1,"idTag":"T1"}] | [3,"n",{"status":"Accepted"}]
call | [2,"2","StartTransaction",{"connectorId":1,"idTag":"T1","meterStart":0,"timestamp":"2025-01-01T00:00:00Z"}]"#;

/// Neither a reply without a number nor an error begins a transaction, and the one that then begins
/// has no profile.
pub(crate) const UNNUMBERED_STARTS: &str = r#"stop 1
start 1 own 7

< [2,"a","RemoteStartTransaction",{"connectorId":1,"idTag":"T1","chargingProfile":{"chargingProfileId":5,"stackLevel":0,"chargingProfilePurpose":"TxProfile","chargingProfileKind":"Relative","chargingSchedule":{"chargingRateUnit":"A","chargingSchedulePeriod":[{"startPeriod":0,"limit":6.0}]}}}] | [3,"a",{"status":"Accepted"}]
call | [2,"0","StartTransaction",{"connectorId":1,"idTag":"T1","meterStart":0,"timestamp":"2025-01-01T00:00:00Z"}]
< [3,"0",{"idTagInfo":{"status":"Invalid"}}] | -
< [2,"b","RemoteStartTransaction",{"connectorId":1,"idTag":"T2","chargingProfile":{"chargingProfileId":5,"stackLevel":0,"chargingProfilePurpose":"TxProfile","chargingProfileKind":"Relative","chargingSchedule":{"chargingRateUnit":"A","chargingSchedulePeriod":[{"startPeriod":0,"limit":6.0}]}}}] | [3,"b",{"status":"Accepted"}]
call | [2,"1","StartTransaction",{"connectorId":1,"idTag":"T2","meterStart":0,"timestamp":"2025-01-01T00:00:00Z"}]
< [4,"1","InternalError","",{}] | -
call | [2,"2","StartTransaction",{"connectorId":1,"idTag":"own","meterStart":7,"timestamp":"2025-01-01T00:00:00Z"}]
< [3,"2",{"idTagInfo":{"status":"Accepted"},"transactionId":8}] | -
< [2,"c","GetCompositeSchedule",{"connectorId":1,"duration":60}] | [3,"c",{"status":"Accepted","connectorId":1,"scheduleStart":"2025-01-01T00:00:00Z","chargingSchedule":{"duration":60,"chargingRateUnit":"A","chargingSchedulePeriod":[{"startPeriod":0,"limit":16.0}]}}]
call | -"#;

/// Of two remote starts, the later one comes first.
pub(crate) const WITHOUT_PROFILES: &str = r#"

< [2,"a","RemoteStartTransaction",{"connectorId":2,"idTag":""}] | [3,"a",{"status":"Accepted"}]
< [2,"b","RemoteStartTransaction",{"connectorId":1,"idTag":"a\"b"}] | [3,"b",{"status":"Accepted"}]
call | [2,"0","StartTransaction",{"connectorId":1,"idTag":"a\"b","meterStart":0,"timestamp":"2025-01-01T00:00:00Z"}]
< [3,"0",{"idTagInfo":{"status":"Accepted"},"transactionId":1}] | -
< [2,"c","GetCompositeSchedule",{"connectorId":1,"duration":60}] | [3,"c",{"status":"Accepted","connectorId":1,"scheduleStart":"2025-01-01T00:00:00Z","chargingSchedule":{"duration":60,"chargingRateUnit":"A","chargingSchedulePeriod":[{"startPeriod":0,"limit":16.0}]}}]
call | [2,"1","StartTransaction",{"connectorId":2,"idTag":"","meterStart":0,"timestamp":"2025-01-01T00:00:00Z"}]
< [3,"1",{"idTagInfo":{"status":"Accepted"},"transactionId":2}] | -
call | -"#;
