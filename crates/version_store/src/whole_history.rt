//! The laws of a book over its whole history.

ghost use Rattle.version_store.specs.WholeHistory.{StoresAreReached, StoresCountAll};
ghost use Rattle.version_store.specs.WholeHistory.{StoresSendInOrder, StoresAnswerOnce};
ghost use Rattle.version_store.specs.WholeHistory.{StoresHandOutRight, StoresSendOn, StoresAuditRight};

use site_core::{
    answers_are_right, audits_have_their_books, histories_go_on_from_any_state,
    histories_send_calls_in_order, requests_are_answered_once,
};

/// The laws of a book over its whole history: that until its base, and that since. It is the
/// history from the opening of its site on, however often it was folded. It is legal, and the
/// totals are those of its changes and its answers. The calls that were sent to a point are in
/// sending order. No request is lost, and none is answered twice. Each collected answer is right,
/// as in the headline. Each audit of a point is compared with the book that the point had when it
/// was begun. Its verdict is Unsettled, or one on that book and something that the point may have
/// replied.
pub fn books_have_whole_histories()
    ensures reached { StoresAreReached }
    ensures counts { StoresCountAll }
    ensures order { StoresSendInOrder }
    ensures once { StoresAnswerOnce }
    ensures right { StoresHandOutRight }
    ensures audits { StoresAuditRight }
{
    answers_are_right();
    requests_are_answered_once();
    histories_send_calls_in_order();
    audits_have_their_books();
}

/// The law of the calls to a point since the base. If `c` calls of the point were confirmed until
/// then, the base keeps its calls from number `c` on. The stored Sends begin with call `c` or the
/// next one: no fold loses a call, or makes an older one go out again.
pub fn stored_calls_go_on()
    ensures { StoresSendOn }
{
    histories_go_on_from_any_state();
}
