//! Laws of audits along every history: public functions with empty bodies.

ghost use Rattle.site_core.specs.Audits.{AuditsHaveTheirBooks, VerdictsStayRight};
ghost use Rattle.site_core.specs.Equal.{AreOne, same_request, same_transactions};

/// The law that each audit is compared with the book that its point had when it was begun. It holds
/// along every legal history from any state, unless the audit was begun before that state.
pub fn audits_have_their_books()
    ensures { AuditsHaveTheirBooks }
{}

/// The law that each kept verdict is right for its audit, along every legal history from any state
/// in which that holds. Such a verdict is Unsettled, or one on the request, the book of that time
/// and something that the point may have replied.
pub fn verdicts_stay_right()
    ensures { VerdictsStayRight }
{}

/// The law that two audits are the same if they are equal field by field. The same holds of two
/// books' transactions.
pub fn equal_books_are_one()
    ensures audits { AreOne same_request }
    ensures transactions { AreOne same_transactions }
{}
