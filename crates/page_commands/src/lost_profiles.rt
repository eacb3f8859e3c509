//! The profiles that points rejected or may have lost.

use crate::explain_reader::ExplainReader;
use explain_pages::KnownProfile;
use messages::purpose_name;
use ocpp_scalars::push_instant;
use profile::Row;
use site_core::{Machine, ProfileState};
use site_history::name_of;
use std::alloc::{AllocError, AllocGlobal, Global};

/// Prints a note of the command `explain` to standard error for each profile that the explained
/// point rejected or may have lost. The limits have it, and the point perhaps doesn't.
pub(crate) fn say_lost<R: Eprint + AllocGlobal>(
    rt: &R,
    machine: &Machine,
    reader: &ExplainReader<'_>,
) -> Result<(), AllocError> {
    let point = reader.point;
    let Some(book) = machine.book_of(point) else {
        return Ok(());
    };
    for row in book.view().rows {
        let what = match machine.profile_state_of(point, row) {
            ProfileState::Rejected => "rejected",
            ProfileState::Unsure => "may have lost",
            // `say_unconfirmed` counts the calls without a reply.
            ProfileState::Held | ProfileState::Sent => continue,
        };
        let since = since_text(rt.alloc(), reader, row)?;
        let (purpose, id) = (purpose_name(row.profile.purpose), row.profile.id);
        let connector = row.connector;
        let _ = eprintln!(rt;
            "central: {point} {what} {purpose} {id} at connector {connector}{since}"
        );
    }
    Ok(())
}

/// Returns, for the end of a note of the command `explain`, since when a profile is in its state at
/// its point. Adds by the reply to which call.
fn since_text(alloc: Global, reader: &ExplainReader<'_>, row: &Row) -> Result<String, AllocError> {
    let mut text = String::new(alloc);
    let Some(known) = reader.states.of(row) else {
        return Ok(text);
    };
    text.push_str(", at ")?;
    push_instant(&mut text, known.since)?;
    if let Some(call) = known.by_call {
        text.push_str(format!(in alloc; " by its reply to call {call}")?.as_str())?;
    }
    Ok(text)
}

/// Returns the states of the explained point's profiles by the journal, for the table, picture and
/// JSON of the command `explain`.
pub(crate) fn known_profiles<'a>(
    alloc: Global,
    machine: &Machine,
    reader: &ExplainReader<'a>,
) -> Result<Vec<KnownProfile<'a>>, AllocError> {
    let mut known = Vec::new(alloc);
    let Some(book) = machine.book_of(reader.point) else {
        return Ok(known);
    };
    for row in book.view().rows {
        if let Some(found) = known_profile(reader, row) {
            // The prover doesn't cover a `push` of a struct with two references.
            known.extend_from_slice(&[found])?;
        }
    }
    Ok(known)
}

/// Returns the state of a profile of the explained point by the journal, if known, for the table,
/// picture and JSON of the command `explain`.
fn known_profile<'a>(reader: &ExplainReader<'a>, row: &Row) -> Option<KnownProfile<'a>> {
    let found = reader.states.of(row)?;
    Some(KnownProfile {
        profile: name_of(row),
        state: found.state.name(),
        note: note_of(found.state),
        since: found.since,
    })
}

/// Returns the words of the command `explain` for a profile in this state, which an instant
/// follows, or none if the point holds the profile.
fn note_of(state: ProfileState) -> &'static str {
    match state {
        ProfileState::Held => "",
        ProfileState::Sent => "not confirmed by the point since",
        ProfileState::Unsure => "perhaps lost by the point at",
        ProfileState::Rejected => "rejected by the point at",
    }
}
