//! Tables for people, against tables made by hand, at several widths.

use crate::samples::{explain, interval, point_with, profile, same};
use explain_pages::{NotCounted, NotCountedReason, write_table};
use meaning::{Cause, WhyNot};
use profile::Purpose;

const PLAIN: &str = "\
CP1, connector 1, from 2025-01-01 00:00 to 2025-01-03 00:00 (2 d). The limit in A, times in UTC.

from              to                length   limit  why
2025-01-01 00:00             06:00  6 h      6.0 A  TxDefaultProfile 1, stack level 1, at connector 0
           06:00             22:00  16 h    20.0 A  TxDefaultProfile 2, stack level 0, at connector 0
           22:00  2025-01-02 06:00  8 h      6.0 A  TxDefaultProfile 1, stack level 1, at connector 0
2025-01-02 06:00  2025-01-03 00:00  18 h    32.0 A  the connector's ceiling

Profiles that never set the limit in this time:
  TxProfile 7, stack level 2, at connector 0: It is a TxProfile, and the connector has no active transaction.
";

const OF_40: &str = "\
CP1, connector 1, from 2025-01-01 00:00
  to 2025-01-03 00:00 (2 d). The limit
  in A, times in UTC.

2025-01-01 00:00 to 06:00
   6.0 A   6 h  ####
  TxDefaultProfile 1, stack level 1, at
    connector 0
06:00 to 22:00
  20.0 A  16 h  ###############
  TxDefaultProfile 2, stack level 0, at
    connector 0
22:00 to 2025-01-02 06:00
   6.0 A   8 h  ####
  TxDefaultProfile 1, stack level 1, at
    connector 0
2025-01-02 06:00 to 2025-01-03 00:00
  32.0 A  18 h  ########################
  the connector's ceiling

Profiles that never set the limit in
  this time:
  TxProfile 7, stack level 2, at
    connector 0: It is a TxProfile, and
    the connector has no active
    transaction.
";

const OF_80: &str = "\
CP1, connector 1, from 2025-01-01 00:00 to 2025-01-03 00:00 (2 d). The limit in
  A, times in UTC.

from              to                length   limit
2025-01-01 00:00             06:00  6 h      6.0 A  #####
    TxDefaultProfile 1, stack level 1, at connector 0
           06:00             22:00  16 h    20.0 A  #################
    TxDefaultProfile 2, stack level 0, at connector 0
           22:00  2025-01-02 06:00  8 h      6.0 A  #####
    TxDefaultProfile 1, stack level 1, at connector 0
2025-01-02 06:00  2025-01-03 00:00  18 h    32.0 A  ############################
    the connector's ceiling

Profiles that never set the limit in this time:
  TxProfile 7, stack level 2, at connector 0: It is a TxProfile, and the
    connector has no active transaction.
";

const OF_200: &str = "\
CP1, connector 1, from 2025-01-01 00:00 to 2025-01-03 00:00 (2 d). The limit in A, times in UTC.

from              to                length   limit                                            why
2025-01-01 00:00             06:00  6 h      6.0 A  #######                                   TxDefaultProfile 1, stack level 1, at connector 0
           06:00             22:00  16 h    20.0 A  #########################                 TxDefaultProfile 2, stack level 0, at connector 0
           22:00  2025-01-02 06:00  8 h      6.0 A  #######                                   TxDefaultProfile 1, stack level 1, at connector 0
2025-01-02 06:00  2025-01-03 00:00  18 h    32.0 A  ########################################  the connector's ceiling

Profiles that never set the limit in this time:
  TxProfile 7, stack level 2, at connector 0: It is a TxProfile, and the connector has no active transaction.
";

/// Checks that `explain`'s table equals tables made by hand, without a terminal's width and at
/// three widths.
#[test]
fn tables_fit_the_terminal(rt: HostRuntime) {
    let alloc = rt.alloc();
    let night = Cause::Profile(profile(1, Purpose::TxDefaultProfile, 1));
    let day = Cause::Profile(profile(2, Purpose::TxDefaultProfile, 0));
    let intervals = [
        interval(alloc, (0, 21_600), 60, night),
        interval(alloc, (21_600, 79_200), 200, day),
        interval(alloc, (79_200, 108_000), 60, night),
        interval(alloc, (108_000, 172_800), 320, Cause::ConnectorCeiling),
    ];
    let never = [NotCounted {
        profile: profile(7, Purpose::TxProfile, 2),
        reason: NotCountedReason::NotPrevailing(WhyNot::NoTransaction),
    }];
    let point = point_with(&rt, alloc, "", "none");
    let explained = explain(&rt, point.view(), (1, 172_800), &intervals, &never);
    for (columns, wanted) in [
        (None, PLAIN),
        (Some(40), OF_40),
        (Some(80), OF_80),
        (Some(200), OF_200),
    ] {
        let table = write_table(alloc, &explained, columns, None).expect(&rt, "error");
        same(&rt, table.as_str(), wanted);
    }
}
