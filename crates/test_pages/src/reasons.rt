//! The reasons why profiles have no part, against reasons found by hand. The cases of `explain`
//! have the sentences for them.

use crate::samples::{explain, interval, point_with, same};
use explain_pages::{ExplainedRequest, not_counted, write_json};
use meaning::Cause;
use std::alloc::Global;
use std::process::Abort;

/// A connector that is requested for a day, which of the two connectors have had a transaction
/// since midnight, the rows of the point, and the reason of each row. One interval begins at
/// midnight and one at noon (43,200), and no profile sets the limit of either. A profile may
/// prevail at one second only, or for one of two connectors.
const UNCOUNTED: &str = "\
1 none | id=1 start=0; id=2 level=1 start=0 duration=43200 | NotLeast NotLeast
1 none | id=2 level=1 start=0 duration=43200; id=1 start=0 | NotLeast NotLeast
1 none | id=1 start=0; id=2 level=1 start=0 duration=43200; id=3 purpose=TxProfile connector=1 start=0 | NotLeast NotLeast NoTransaction
1 none | id=1 start=0; id=2 level=1 start=0 duration=43200; id=3 level=2 start=0 | BelowHigherLevel BelowHigherLevel NotLeast
1 first | id=1 level=3 start=0; id=2 purpose=TxProfile connector=1 start=0 duration=43200 | NotLeast NotLeast
1 first | id=1 level=3 start=0; id=2 purpose=TxProfile connector=1 start=0 | BehindTxProfile NotLeast
1 none | id=1 purpose=TxProfile connector=1; id=2 connector=2; id=3 start=0; id=4 connector=1 start=0 | NoTransaction OtherConnector Hidden NotLeast
1 none | id=1 level=1 start=0 from=90000; id=2 level=2 start=0 to=0; id=3 level=3 start=90000 | NotYetValid NoLongerValid BeforeAnchor
1 none | id=1 start=0 duration=0; id=2 level=1 start=0 periods=90000:160 | PastDuration BeforeFirstPeriod
1 none | id=1 purpose=ChargePointMaxProfile start=0; id=2 purpose=ChargePointMaxProfile level=1 start=50000 | NotLeast NotLeast
0 second | id=1 start=0; id=2 connector=1; id=3 connector=2 level=1 start=0 | BelowHigherLevel NoActiveConnector NotLeast
0 both | id=1 start=0; id=2 connector=1 start=0; id=3 purpose=ChargePointMaxProfile start=0 | NotLeast NotLeast NotLeast
0 both | id=1 start=0; id=2 connector=1 level=1 start=0 duration=43200; id=3 connector=2 level=1 start=90000 | NotLeast NotLeast BeforeAnchor
0 none | id=1 start=0 | NoActiveConnector
1 none | id=1 start=0 duration=2; id=2 level=1 start=0 duration=1 | NotLeast NotLeast
0 both | id=1 start=0; id=2 connector=1 start=0 | NotLeast NotLeast
0 both | id=1 start=0; id=2 connector=1 start=0; id=3 connector=2 level=1 start=0 | BehindOthers NotLeast NotLeast
1 none | id=1 start=0 duration=2; id=2 level=1 start=0 duration=3 | BehindOthers NotLeast
1 first | id=1 start=0; id=2 level=1 start=0 duration=1; id=3 purpose=TxProfile connector=1 start=0 | BehindTxProfile BehindTxProfile NotLeast
1 none | id=1 start=0 duration=1 from=2 | NoLimit
1 none | id=1 kind=Recurring recurrency=Daily start=0 duration=0; id=2 level=1 kind=Recurring recurrency=Weekly start=0 periods=90000:160 | PastDuration BeforeFirstPeriod
1 none | id=1 level=1 start=0 from=7200; id=2 start=0 duration=3600 | NotLeast NotLeast";

/// Checks that `explain`'s JSON gives the reason found by hand for each profile that never sets the
/// limit.
#[test]
fn each_row_has_its_reason(rt: HostRuntime) {
    for line in UNCOUNTED.lines() {
        expect_reasons(&rt, rt.alloc(), line);
    }
}

/// Checks that `explain`'s JSON gives the reasons in a line of `UNCOUNTED` for the line's profiles,
/// which never set the limit.
fn expect_reasons(rt: &impl Abort, alloc: Global, line: &str) {
    let (asked, rest) = line.split_once(" | ").expect(rt, line);
    let (rows, reasons) = rest.split_once(" | ").expect(rt, line);
    let (connector, active) = asked.split_once(' ').expect(rt, line);
    let connector = connector.parse::<u32>().ok().expect(rt, line);
    let rows = rows.replace(alloc, "; ", "\n").expect(rt, line);
    let json = uncounted(rt, alloc, connector, (rows.as_str(), active));
    let names = names_of(rt, alloc, json.as_str());
    same(rt, names.as_str(), reasons);
}

/// Returns `explain`'s JSON of a request in which the profiles of the rows set no limit, for tests
/// of the reasons in it.
fn uncounted(
    rt: &impl Abort,
    alloc: Global,
    connector: u32,
    (rows, active): (&str, &str),
) -> String {
    let point = point_with(rt, alloc, rows, active);
    let intervals = [
        interval(alloc, (0, 43_200), 320, Cause::ConnectorCeiling),
        interval(alloc, (43_200, 86_400), 310, Cause::PointCeiling),
    ];
    let explained = explain(rt, point.view(), (connector, 86_400), &intervals, &[]);
    let rest = not_counted(alloc, &point.view(), &explained.ask, &intervals).expect(rt, rows);
    let explained = ExplainedRequest {
        not_counted: rest.as_slice(),
        ..explained
    };
    write_json(alloc, &explained).expect(rt, rows)
}

/// Returns the names of the reasons in `explain`'s JSON, separated by blanks, to compare them in a
/// test with those found by hand.
fn names_of(rt: &impl Abort, alloc: Global, json: &str) -> String {
    let mut names = String::new(alloc);
    for piece in json.split("\"reason\":\"").skip(1) {
        let (name, _) = piece.split_once('"').expect(rt, piece);
        if !names.is_empty() {
            names.push(' ').expect(rt, "error");
        }
        names.push_str(name).expect(rt, "error");
    }
    names
}
