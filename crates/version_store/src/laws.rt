//! The laws of the machine, for proofs of the stored history.

ghost use Rattle.version_store.specs.ByCases.Laws.{Laws};

use site_core::{
    audits_have_their_books, numbers_tell_of_histories, only_events_change_the_state,
    replies_are_their_steps, requests_go_on_from_any_state, stored_histories_replay,
    verdicts_stay_right,
};

/// Brings the laws of the central system's steps into a proof about the book's history that calls
/// it. Does nothing at run time.
pub(crate) fn machine_laws()
    ensures { Laws }
{
    stored_histories_replay();
    numbers_tell_of_histories();
    requests_go_on_from_any_state();
    audits_have_their_books();
    verdicts_stay_right();
    replies_are_their_steps();
    only_events_change_the_state();
}
