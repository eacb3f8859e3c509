//! The actions of OCPP 1.6 that are known here (chapters 4, 5 and 6). Reads a CALL as its action or
//! as the fault to answer. Writes answers, and calls to charge points.
#![tactic(auto)]

mod action;
mod action_kind;
mod call;
mod call_fault;
mod call_text;
mod field_name;
mod field_row;
mod field_value;
mod fields;
mod fixed_answer;
mod laws;
mod list_text;
mod names;
mod object_text;
mod profile_fields;
mod reply_status;
mod response;
mod response_text;
mod said;
mod side;

pub use action::{
    Action, RemoteStartTransaction, ScheduleRequest, StartTransaction, read_action, read_fields,
};
pub use action_kind::{ActionKind, fields_of};
pub use call::{Call, CallBody};
pub use call_fault::CallFault;
pub use call_text::{push_call, push_payload, push_payload_fields, push_profile, push_subject};
pub use field_name::FieldName;
pub use field_row::{FieldKind, FieldRow, ObjectKind, fields_in};
pub use fixed_answer::FixedAnswer;
pub use laws::{action_names, first_faults};
pub use names::{kind_name, purpose_name, recurrency_name, unit_name};
pub use reply_status::ReplyStatus;
pub use response::{AuditOutcome, PointStatus, Response, ScheduleResponse};
pub use response_text::{push_response, write_response};
pub use said::{is_accepted, read_said};
pub use side::{Side, side_of};
