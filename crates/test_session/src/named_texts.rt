//! Messages of an operator and of a point, with their answers, by name.

pub(crate) const SITE: &str =
    r#"{"unit":"A","points":[{"id":"CP1","ceiling":63.0,"connectors":[32.0,32.0]}]}"#;

/// It is ten seconds after midnight. `clear` is the first call to a point.
const TEXTS: &str = r#"ask [2,"b","GetCompositeSchedule",{"connectorId":1,"duration":60}]
ask-short [4,"b","InternalError","OutOfMemory",{}]
heartbeat [2,"1","Heartbeat",{}]
moment [3,"1",{"currentTime":"2025-01-01T00:00:10Z"}]
heartbeat-short [4,"1","InternalError","OutOfMemory",{}]
clear [2,"0","ClearChargingProfile",{}]"#;

/// Returns the OCPP-J message of a name, for a client in the tests of sessions. Any other name is
/// itself the text, which is no OCPP-J frame.
pub(crate) fn text_of(name: &str) -> &str {
    for line in TEXTS.lines() {
        let (its, text) = line.split_once(' ').unwrap_or((line, ""));
        if its == name {
            return text;
        }
    }
    name
}

/// Returns the name of an OCPP-J message that a client read in a test of sessions, or `unknown`.
pub(crate) fn name_of(text: &str) -> &'static str {
    for line in TEXTS.lines() {
        let (name, its) = line.split_once(' ').unwrap_or((line, ""));
        if its == text {
            return name;
        }
    }
    "unknown"
}
