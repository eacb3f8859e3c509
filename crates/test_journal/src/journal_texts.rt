//! A journal with lines of each kind, written by hand, and changes of its lines.

pub(crate) const SITE: &str =
    r#"{"unit":"A","points":[{"id":"CP1","ceiling":63.0,"connectors":[32.0,32.0]},{"id":"CP2","ceiling":32.0,"connectors":[32.0]}]}"#;

/// The lines of the journal from line 2 on.
pub(crate) const JOURNAL: &str = r#"2025-01-01T00:00:00Z attached CP1 1
2025-01-01T00:00:01Z sent CP1 1 0
2025-01-01T00:00:02Z reply CP1 1 [3,"0",{"status":"Unknown"}]
2025-01-01T00:00:03Z operator CP1 1 [2,"a","SetChargingProfile",{"connectorId":0,"csChargingProfiles":{"chargingProfileId":1,"stackLevel":0,"chargingProfilePurpose":"TxDefaultProfile","chargingProfileKind":"Absolute","chargingSchedule":{"startSchedule":"2025-01-01T00:00:00Z","chargingRateUnit":"A","chargingSchedulePeriod":[{"startPeriod":0,"limit":16}]}}}]
2025-01-01T00:00:04Z sent CP1 1 1
2025-01-01T00:00:05Z reply CP1 1 [3,"1",{"status":"Accepted"}]
2025-01-01T00:00:06Z operator CP1 2 [2,"b","AuditPoint",{"connectorId":1,"duration":60}]
2025-01-01T00:00:07Z sent CP1 1 2
2025-01-01T00:00:08Z reply CP1 1 [3,"2",{"status":"Accepted","connectorId":1,"scheduleStart":"2025-01-01T00:00:08Z","chargingSchedule":{"duration":60,"chargingRateUnit":"A","chargingSchedulePeriod":[{"startPeriod":0,"limit":16.0}]}}]
2025-01-01T00:00:09Z verdict CP1 2 [3,"2",{"status":"Accepted","connectorId":1,"scheduleStart":"2025-01-01T00:00:08Z","chargingSchedule":{"duration":60,"chargingRateUnit":"A","chargingSchedulePeriod":[{"startPeriod":0,"limit":16.0}]}}]
2025-01-01T00:00:10Z point CP1 1 [2,"4","StartTransaction",{"connectorId":1,"idTag":"T1","meterStart":0,"timestamp":"2025-01-01T00:00:00Z"}]
2025-01-01T00:00:11Z operator CP1 3 [2,"c","RemoteStartTransaction",{"connectorId":2,"idTag":"T2"}]
2025-01-01T00:00:12Z sent CP1 1 3
2025-01-01T00:00:13Z lost CP1 1
2025-01-01T00:00:14Z attached CP1 2
2025-01-01T00:00:15Z sent CP1 2 3
2025-01-01T00:00:16Z reply CP1 2 [3,"3",{"status":"Accepted"}]
2025-01-01T00:00:17Z operator CP1 3 [2,"d","ClearChargingProfile",{"id":1}]
2025-01-01T00:00:18Z point CP1 4 [2,"5","StopTransaction",{"transactionId":1,"meterStop":5,"timestamp":"2025-01-01T00:01:00Z"}]
2025-01-01T00:00:19Z attached CP2 3
"#;

/// Lines in place of one of the journal, each after the number of that one and before the output
/// for the changed journal.
pub(crate) const CHANGED: &str =
    r#"2|2025-01-01T00:00:00Z attached CP1 2|line 2: its step draws 1, and 2 is written
2|2025-01-01T00:00:00Z attached CP9 1|line 2: its step is refused: UnknownPoint
3|2025-01-01T00:00:01Z sent CP1 1 1|line 3: its step draws 0, and 1 is written
3|2025-01-01T00:00:01Z sent CP1 2 0|line 3: its step is refused: Superseded
3|2025-01-01 sent CP1 1 0|line 3: its first word is no instant
3|2025-01-01T00:00:01Z  sent CP1 1 0|line 3: not a line of a journal
3|2025-01-01T00:00:01Z sent CP1 1|line 3: not a line of a journal
3|2025-01-01T00:00:01Z sent CP1 1 |line 3: a number is missing or too high
3|2025-01-01T00:00:01Z sent CP1 01 0|line 3: a number is missing or too high
3|2025-01-01T00:00:01Z sent CP1 +1 0|line 3: a number is missing or too high
3|2025-01-01T00:00:01Z sent CP1 1 1000000000001|line 3: a number is missing or too high
3|2025-01-01T00:00:01Z sent CP1 1 1000000000000|line 3: its step draws 0, and 1000000000000 is written
3|2025-01-01T01:00:01+01:00 sent CP1 1 1|line 3: its step draws 0, and 1 is written
3|2025-01-01T00:00:01Z lost CP1 2|line 3: its step is refused: Superseded
4|2025-01-01T00:00:02Z reply CP1 1 [3,"1",{"status":"Unknown"}]|line 4: its step is refused: NothingInFlight
4|2025-01-01T00:00:02Z reply CP1 2 [3,"0",{"status":"Unknown"}]|line 4: its step is refused: Superseded
4|2025-01-01T00:00:02Z reply CP1 1 [2,"0","Heartbeat",{}]|line 4: its message asks for no such step
4|2025-01-01T00:00:02Z point CP1 1 [3,"0",{"status":"Unknown"}]|line 4: its message asks for no such step
4|2025-01-01T00:00:02Z sent CP1 1 0|line 4: its step changes nothing
5|2025-01-01T00:00:03Z operator CP1 2 [2,"a","SetChargingProfile",{"connectorId":0,"csChargingProfiles":{"chargingProfileId":1,"stackLevel":0,"chargingProfilePurpose":"TxDefaultProfile","chargingProfileKind":"Absolute","chargingSchedule":{"startSchedule":"2025-01-01T00:00:00Z","chargingRateUnit":"A","chargingSchedulePeriod":[{"startPeriod":0,"limit":16}]}}}]|line 5: its step draws 1, and 2 is written
5|2025-01-01T00:00:03Z operator CP1 1 [2,"b","AuditPoint",{"connectorId":1,"duration":60}]|line 19: its step changes nothing
5|2025-01-01T00:00:03Z operator CP1 1 [2,"b","GetCompositeSchedule",{"connectorId":1,"duration":60}]|line 5: its message asks for no such step
5|2025-01-01T00:00:03Z operator CP1 1 [2,"b","PointStatus",{}]|line 5: its message asks for no such step
5|2025-01-01T00:00:03Z operator CP1 1 [2,"b","ClearChargingProfile",{}]|line 5: its step changes nothing
5|2025-01-01T00:00:03Z point CP1 1 [2,"b","StopTransaction",{"transactionId":1,"meterStop":5,"timestamp":"2025-01-01T00:01:00Z"}]|line 5: its step changes nothing
5|2025-01-01T00:00:03Z operator CP1 1 [2,"b"]|line 5: its message asks for no such step
5|2025-01-01T00:00:03Z operator CP1 1 |line 5: its message asks for no such step
8|2025-01-01T00:00:06Z operator CP1 3 [2,"b","AuditPoint",{"connectorId":1,"duration":60}]|line 8: its step draws 2, and 3 is written
8|2025-01-01T00:00:06Z operator CP1 2 [2,"b","AuditPoint",{"connectorId":3,"duration":60}]|line 8: its step is refused: UnknownConnector
11|2025-01-01T00:00:09Z verdict CP1 3 [3,"2",{"status":"Rejected"}]|line 11: its step is refused: UnknownRequest
12|2025-01-01T00:00:10Z verdict CP1 2 [3,"2",{"status":"Rejected"}]|line 12: its step is refused: UnknownRequest
12|2025-01-01T00:00:10Z point CP1 2 [2,"4","StartTransaction",{"connectorId":1,"idTag":"T1","meterStart":0,"timestamp":"2025-01-01T00:00:00Z"}]|line 12: its step draws 1, and 2 is written
13|2025-01-01T00:00:10Z point CP1 1 [2,"4","StartTransaction",{"connectorId":1,"idTag":"T1","meterStart":0,"timestamp":"2025-01-01T00:00:00Z"}]|line 13: its step changes nothing
13|2025-01-01T00:00:11Z operator CP1 4 [2,"c","RemoteStartTransaction",{"connectorId":2,"idTag":"T2"}]|line 13: its step draws 3, and 4 is written
19|2025-01-01T00:00:17Z operator CP1 2 [2,"d","ClearChargingProfile",{"id":1}]|line 19: its step draws 3, and 2 is written
20|2025-01-01T00:00:18Z point CP1 5 [2,"5","StopTransaction",{"transactionId":1,"meterStop":5,"timestamp":"2025-01-01T00:01:00Z"}]|line 20: its step draws 4, and 5 is written
20|2025-01-01T00:00:18Z operator CP1 4 [2,"5","StopTransaction",{"transactionId":1,"meterStop":5,"timestamp":"2025-01-01T00:01:00Z"}]|line 20: its message asks for no such step
21|2025-01-01T00:00:19Z lost CP2 3|line 21: its step is refused: Superseded
21|2025-01-01T00:00:19Z found CP2 3|line 21: not a line of a journal
21||line 21: not a line of a journal"#;
