//! The states of profiles at their point, for the causes of its limits.

use meaning::{Cause, PrevailingProfile};
use ocpp_scalars::Instant;
use page_text::Page;

/// The state of a profile at its point, by the point's replies.
#[derive(Clone, Copy)]
pub struct KnownProfile<'a> {
    pub profile: PrevailingProfile,
    /// The word for the state, such as `rejected`.
    pub state: &'a str,
    /// The words for people, up to the moment: `rejected by the point at`. Empty if the point holds
    /// the profile.
    pub note: &'a str,
    /// Since when it is in this state.
    pub since: Instant,
}

/// Returns the state at its point of the profile that causes a limit, if it is one of these.
/// `explain`'s table, HTML page, picture and JSON name it.
pub(crate) fn known_cause<'a, 'b>(
    known: &'a [KnownProfile<'b>],
    cause: Cause,
) -> Option<&'a KnownProfile<'b>> {
    let Cause::Profile(profile) = cause else {
        return None;
    };
    known.iter().find(|found| found.profile == profile)
}

/// Appends to a limit's cause on a page of `explain` that the point isn't known to have the
/// profile. Appends nothing unless the profile is one of these and the point doesn't hold it.
pub(crate) fn push_known(out: &mut Page, known: &[KnownProfile<'_>], cause: Cause) {
    let Some(found) = known_cause(known, cause) else {
        return;
    };
    if found.note.is_empty() {
        return;
    }
    out.push_str(", ");
    out.push_str(found.note);
    out.push(' ');
    out.push_instant(found.since);
}
