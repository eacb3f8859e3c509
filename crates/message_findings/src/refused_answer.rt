//! Explains the refusal in an answer to the operator who got it.

use crate::rejection::{RejectedAnswer, fault_of, refusal_of, rejection_of};
use crate::sentences::{call_sentence, sentence};
use findings::Excerpt;
use ocpp_scalars::Refusal;
use ocppj_frame::{FrameFault, ReadingMemory, read_tree};
use std::alloc::{AllocError, Global};

/// The explanation of `OutOfMemory`.
// A step whose line doesn't fit on the journal's device has the same refusal as one without memory.
const SHORT_OR_FULL: &str =
    "memory ran out, or the central system's device is full: see its status";

/// Explains an answer's refusal: its name and its sentence, with the field at fault if it has one.
/// None if the answer refuses nothing, or by a name that isn't this system's.
pub fn answer_sentence(alloc: Global, answer: &str) -> Result<Option<String>, AllocError> {
    let mut memory = ReadingMemory::new(alloc);
    match read_tree(&mut memory, answer) {
        Ok(tree) => sentence_of(alloc, rejection_of(tree.root())),
        Err(FrameFault::OutOfMemory) => Err(AllocError),
        Err(_) => Ok(None),
    }
}

/// Explains, for `central call`, the refusal in the answer to an operator's CALL, if it is one, by
/// the sentence that `check` has for it.
fn sentence_of(
    alloc: Global,
    answer: Option<RejectedAnswer<'_>>,
) -> Result<Option<String>, AllocError> {
    match answer {
        Some(RejectedAnswer::Rejected(reason)) => refusal_sentence(alloc, reason),
        Some(RejectedAnswer::Error { code, description }) => match refusal_sentence(
            alloc,
            description,
        )? {
            Some(sentence) => Ok(Some(sentence)),
            None => fault_sentence(alloc, code, description),
        },
        Some(RejectedAnswer::Unknown) | None => Ok(None),
    }
}

/// Explains, for `central call`, the refusal of this name in the answer to an operator's CALL. Uses
/// the sentence that `check` has for it, except for `OutOfMemory`. None if there is no such
/// refusal.
fn refusal_sentence(alloc: Global, name: &str) -> Result<Option<String>, AllocError> {
    let Some(refusal) = refusal_of(name) else {
        return Ok(None);
    };
    let why = match refusal {
        Refusal::OutOfMemory => SHORT_OR_FULL,
        other => sentence(other),
    };
    Ok(Some(format!(in alloc; "{refusal}: {why}")?))
}

/// Explains, for `central call`, the CALLERROR of this code in answer to an operator's CALL, by the
/// sentence that `check` has for it. Adds the field that the description names.
fn fault_sentence(alloc: Global, code: &str, field: &str) -> Result<Option<String>, AllocError> {
    let Some(fault) = fault_of(code) else {
        return Ok(None);
    };
    let why = call_sentence(fault);
    if field.is_empty() {
        return Ok(Some(format!(in alloc; "{code}: {why}")?));
    }
    let field = Excerpt(field);
    Ok(Some(format!(in alloc; "{code}: {field}: {why}")?))
}
