//! The central system as one machine: the state of a site between two steps, and its steps. In any
//! order, operators install and clear charging profiles, and points start and stop transactions.
//! Requests for composite schedules are taken, compiled and answered, and calls are sent to the
//! points. `specs/Step.antt` defines the steps, `specs/Headline.antt` the law of all runs.
#![tactic(auto)]

mod ask;
mod audit;
mod audit_laws;
mod call_laws;
mod call_queue;
mod charge_point;
mod charge_points;
mod decision;
mod deliveries;
mod headline;
mod machine;
mod numbers;
mod obey_laws;
mod outbox;
mod outbox_laws;
mod outcome;
mod point_id;
mod reply;
mod request;
mod requests;
mod shared_book;
mod step;
mod via;
mod waiting_starts;

pub use audit::PointAudit;
pub use audit_laws::{audits_have_their_books, equal_books_are_one, verdicts_stay_right};
pub use call_laws::{
    histories_go_on_from_any_state, histories_keep_points_in_step, histories_send_calls_in_order,
    skipped_sends_send_nothing,
};
pub use deliveries::{Delivery, ProfileState};
pub use headline::{
    answered_schedules_are_right, answers_are_right, answers_follow_one_take, answers_stay,
    numbers_tell_of_histories, only_events_change_the_state, points_follow_events,
    replies_are_their_steps, requests_are_answered_once, requests_go_on_from_any_state,
    runs_are_legal, runs_join, runs_keep_the_site, stopped_requests_are_answered,
    stored_histories_replay,
};
pub use machine::Machine;
pub use numbers::{MAX_NUMBER, Numbers};
pub use obey_laws::{obeying_point_leaves_no_call_out, obeying_point_stays_in_step};
pub use outbox::{Outbox, PreparedCall};
pub use outbox_laws::calls_are_sent_in_order;
pub use outcome::{Outcome, Refused, RunFault};
pub use point_id::PointId;
pub use reply::{Counted, Reply};
pub use request::MAX_REQUESTS;
pub use shared_book::SharedBook;
pub use step::{Step, Take};
pub use waiting_starts::WaitingStart;
