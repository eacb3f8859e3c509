//! Pictures and pages of the largest sizes, and of a point whose name has characters that a page
//! escapes.

use crate::samples::{expect, explain, interval, point_with, profile};
use explain_pages::{ExplainedRequest, write_page, write_picture};
use meaning::Cause;
use profile::Purpose;
use std::alloc::Global;
use std::process::Abort;

/// Returns the lines that describe 100 daily profiles of 200 periods each, for a test of
/// `explain`'s picture.
fn hundred_rows(rt: &impl Abort, alloc: Global) -> String {
    let mut lines = String::new(alloc);
    for level in 0..100 {
        write!(
            &mut lines,
            "id={level} level={level} kind=Recurring recurrency=Daily start=0 turns=432\n"
        )
        .expect(rt, "error");
    }
    lines
}

/// Checks that in a week no line of 100 profiles in `explain`'s picture has more than 2,000 steps,
/// so none is cut.
#[test]
fn a_hundred_profiles(rt: HostRuntime) {
    let alloc = rt.alloc();
    let point = point_with(&rt, alloc, hundred_rows(&rt, alloc).as_str(), "none");
    let cause = Cause::Profile(profile(99, Purpose::TxDefaultProfile, 99));
    let intervals = [interval(alloc, (0, 604_800), 60, cause)];
    let explained = explain(&rt, point.view(), (1, 604_800), &intervals, &[]);
    let picture = write_picture(alloc, &explained).expect(&rt, "error");
    assert!(rt; picture.len() < 4_000_000);
    assert!(rt; !picture.as_str().contains("too many steps"));
    expect(&rt, picture.as_str(), ">Tue 2025-01-07</text>\n>V3</text>");
}

/// Checks that `explain`'s HTML page of too many intervals says where its picture ends, and how
/// many intervals its table leaves out, and that it escapes the point's name.
#[test]
fn too_many_intervals(rt: HostRuntime) {
    let alloc = rt.alloc();
    let mut intervals = Vec::new(alloc);
    for second in 0..20_001u32 {
        let limit = if second % 2 == 0 { 0 } else { 10 };
        let end = second.saturating_add(1);
        let next = interval(alloc, (second, end), limit, Cause::PointCeiling);
        intervals.push(next).ok().expect(&rt, "error");
    }
    let point = point_with(&rt, alloc, "", "none");
    let explained = ExplainedRequest {
        point: "\"\\<é&>",
        ..explain(&rt, point.view(), (1, 20_001), intervals.as_slice(), &[])
    };
    let page = write_page(alloc, &explained).expect(&rt, "error");
    let wanted = "<h1>&quot;\\&lt;é&amp;&gt;, connector 1</h1>
the limit, drawn up to 2025-01-01 05:33:20 alone
<p> Further intervals: 1.</p>";
    expect(&rt, page.as_str(), wanted);
}
