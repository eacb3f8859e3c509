//! Limits, causes and reasons in words. This is the only place with the sentences of reasons.

use crate::explained_request::{NotCounted, NotCountedReason};
use crate::known_profile::{KnownProfile, push_known};
use crate::length::length_of;
use crate::markup::push_number;
use meaning::{Cause, PrevailingProfile, Reason, Share, WhyNot};
use messages::{purpose_name, unit_name};
use ocpp_scalars::push_tenths;
use page_text::Page;
use profile::Unit;
use std::alloc::{AllocError, Global};

/// Returns the name of a reason why a profile never sets the limit, as programs read it in
/// `explain`'s JSON.
pub(crate) fn reason_name(reason: NotCountedReason) -> &'static str {
    match reason {
        NotCountedReason::NotLeast => "NotLeast",
        NotCountedReason::NoActiveConnector => "NoActiveConnector",
        NotCountedReason::NoLimit => "NoLimit",
        NotCountedReason::BehindOthers => "BehindOthers",
        NotCountedReason::NotPrevailing(why) => why_not_name(why),
    }
}

/// Returns the name of a reason why a profile doesn't prevail, as programs read it in `explain`'s
/// JSON.
fn why_not_name(why: WhyNot) -> &'static str {
    match why {
        WhyNot::OtherConnector => "OtherConnector",
        WhyNot::NoTransaction => "NoTransaction",
        WhyNot::Hidden => "Hidden",
        WhyNot::NotYetValid => "NotYetValid",
        WhyNot::NoLongerValid => "NoLongerValid",
        WhyNot::BeforeAnchor => "BeforeAnchor",
        WhyNot::PastDuration => "PastDuration",
        WhyNot::BeforeFirstPeriod => "BeforeFirstPeriod",
        WhyNot::BelowHigherLevel => "BelowHigherLevel",
        WhyNot::BehindTxProfile => "BehindTxProfile",
    }
}

/// Returns the sentence for a reason.
pub fn sentence(reason: NotCountedReason) -> &'static str {
    match reason {
        NotCountedReason::NotLeast => "It prevails, but another limit is as low or lower.",
        NotCountedReason::NoActiveConnector => {
            "No connector for which it speaks has an active transaction."
        }
        NotCountedReason::NoLimit => "It has no limit in this time.",
        NotCountedReason::BehindOthers =>
            "Whenever it has a limit, another profile comes before it.",
        NotCountedReason::NotPrevailing(why) => why_not_sentence(why),
    }
}

/// Returns the sentence on `explain`'s pages for a reason why a profile doesn't prevail.
fn why_not_sentence(why: WhyNot) -> &'static str {
    match why {
        WhyNot::OtherConnector => "It is at another connector.",
        WhyNot::NoTransaction => {
            "It is a TxProfile, and the connector has no active transaction."
        }
        WhyNot::Hidden => {
            "It is at connector 0, and a TxDefaultProfile of the connector's own has its stack level."
        }
        WhyNot::NotYetValid => "It isn't valid yet: its validFrom is still to come.",
        WhyNot::NoLongerValid => "It isn't valid any more: its validTo has come.",
        WhyNot::BeforeAnchor => "Its schedule hasn't begun yet.",
        WhyNot::PastDuration => "Its schedule is over: its duration has passed.",
        WhyNot::BeforeFirstPeriod => "None of its periods has begun yet.",
        WhyNot::BelowHigherLevel => {
            "A profile of its purpose with a higher stack level prevails."
        }
        WhyNot::BehindTxProfile => "It is a TxDefaultProfile, and a TxProfile prevails.",
    }
}

/// Appends a limit in tenths with its unit: `16.0 A`.
pub fn push_limit(out: &mut Page, tenths: u32, unit: Unit) {
    let number = tenths_text(out.allocator(), tenths);
    out.push_made(number);
    out.push(' ');
    out.push_str(unit_name(unit));
}

/// Returns a limit in tenths as a number with one decimal, `16.0`, for `explain`'s pages and the
/// status page.
fn tenths_text(alloc: Global, tenths: u32) -> Result<String, AllocError> {
    let mut text = String::new(alloc);
    push_tenths(&mut text, tenths)?;
    Ok(text)
}

/// Appends a length of time: `1 d 8 h`, `1 h 30 min`, `45 s`.
pub fn push_length(out: &mut Page, seconds: u32) {
    let length = length_of(seconds);
    let parts = [
        (length.days, " d"),
        (length.hours, " h"),
        (length.minutes, " min"),
        (length.seconds, " s"),
    ];
    let mut is_first = true;
    for (count, unit) in parts {
        if count > 0 {
            if !is_first {
                out.push(' ');
            }
            write!(out, "{count}{unit}");
            is_first = false;
        }
    }
    if is_first {
        out.push_str("0 s");
    }
}

/// Appends the values that identify a profile: `TxDefaultProfile 1, stack level 0, at connector 0`.
pub fn push_profile(out: &mut Page, profile: PrevailingProfile) {
    push_short_profile(out, profile);
    push_number(out, ", stack level ", u64::from(profile.stack_level));
    push_number(out, ", at connector ", u64::from(profile.connector));
}

/// Returns a profile that never sets the limit, with the reason, for `explain`'s table or HTML
/// page.
pub(crate) fn not_counted_text(alloc: Global, one: &NotCounted) -> Result<String, AllocError> {
    let mut line = Page::new(alloc);
    push_profile(&mut line, one.profile);
    line.push_str(": ");
    line.push_str(sentence(one.reason));
    line.finish()
}

/// Appends a charging profile by its purpose and id alone, `TxDefaultProfile 1`, to `explain`'s
/// pages or the status page.
fn push_short_profile(out: &mut Page, profile: PrevailingProfile) {
    let (purpose, id) = (purpose_name(profile.purpose), profile.id);
    write!(out, "{purpose} {id}");
}

/// Appends a cause without its shares.
pub fn push_cause(out: &mut Page, cause: Cause) {
    match cause {
        Cause::Profile(profile) => push_profile(out, profile),
        Cause::ConnectorCeiling => out.push_str("the connector's ceiling"),
        Cause::PointCeiling => out.push_str("the point's ceiling"),
        Cause::Sum => out.push_str("sum of the active connectors"),
    }
}

/// Appends the cause of a limit in a few words, for `explain`'s picture and for a connector's share
/// of a sum on `explain`'s pages.
pub(crate) fn push_short_cause(out: &mut Page, cause: Cause) {
    match cause {
        Cause::Profile(profile) => push_short_profile(out, profile),
        Cause::ConnectorCeiling => out.push_str("connector's ceiling"),
        Cause::PointCeiling => out.push_str("point's ceiling"),
        Cause::Sum => out.push_str("sum"),
    }
}

/// Appends the cause of a limit, with its shares if it is a sum. After one of these profiles that
/// its point doesn't hold, says so, and since when.
pub fn push_why(out: &mut Page, reason: &Reason, unit: Unit, known: &[KnownProfile<'_>]) {
    push_cause(out, reason.cause);
    push_known(out, known, reason.cause);
    if reason.cause != Cause::Sum {
        return;
    }
    let shares = reason.shares.as_slice();
    if shares.is_empty() {
        out.push_str(": none is active");
    }
    let mut before = ": ";
    for share in shares {
        out.push_str(before);
        push_share(out, share, unit);
        push_known(out, known, share.cause);
        before = ", ";
    }
}

/// Appends a connector's share of a summed limit to a page of `explain` or the status page, with
/// its cause: `connector 1 10.0 A by TxProfile 4`.
fn push_share(out: &mut Page, share: &Share, unit: Unit) {
    push_number(out, "connector ", u64::from(share.connector));
    out.push(' ');
    push_limit(out, share.limit, unit);
    out.push_str(" by ");
    match share.cause {
        Cause::ConnectorCeiling => out.push_str("its ceiling"),
        cause => push_short_cause(out, cause),
    }
}
