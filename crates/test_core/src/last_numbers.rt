//! Steps at the last numbers. They are made only on a machine, since a book begins with the first
//! numbers.

ghost use Rattle.site_core.specs.State.{AreNumbers};

use crate::played::{run, site};
use site_core::{MAX_NUMBER, Machine, Numbers};
use std::alloc::Global;
use std::process::Abort;

const AT_THE_LAST_VERSION: &str = "\
CP1 install periods=0:100 = VersionsExhausted
CP1 start ann 1 0 = VersionsExhausted
CP1 stop 1 = NoSuch
CP1 clear = Unknown
CP1 take 1 0 60 = Taken 1
- compile 1 = Compiled
- answer 1 = limit 160
CP1 audit 1 60 = Audited 1
CP1 status = Waiting 1000000000000002";

const AT_THE_LAST_TRANSACTION: &str = "\
CP1 start ann 1 0 = TransactionsExhausted
CP1 take 1 0 60 = VersionsExhausted
CP1 install periods=0:100 = Accepted";

/// One link below the last, 1,000,000,000,000.
const LAST_LINKS: &str = "\
CP1 attach = Attached 1000000000000
CP1 attach = VersionsExhausted
CP2 attach = VersionsExhausted
CP9 attach = UnknownPoint
CP1 send 1000000000000 = Sent 0
CP1 confirm 1000000000000 0 = Confirmed
CP1 lost 1000000000000 = LinkLost
CP1 attach = VersionsExhausted";

/// The numbers before any is drawn.
const FIRST: Numbers = Numbers {
    version: 0,
    request: 0,
    transaction: 0,
    link: 0,
};

/// Checks the outcomes of a test's lines on a machine of the central system whose last versions,
/// requests, transactions and links had these numbers.
fn run_at(rt: &impl Abort, alloc: Global, numbers: Numbers, lines: &str)
    requires { AreNumbers numbers }
{
    let mut machine = Machine::new_at(alloc, site(rt, alloc), numbers).expect(rt, "error");
    run(rt, alloc, &mut machine, lines);
}

/// Checks that the central system refuses a step that needs a version, a request, a transaction or
/// a link after the last number.
#[test]
fn numbers_end(rt: HostRuntime) {
    let last_version = Numbers {
        version: MAX_NUMBER,
        ..FIRST
    };
    run_at(&rt, rt.alloc(), last_version, AT_THE_LAST_VERSION);
    let last_transaction = Numbers {
        request: MAX_NUMBER,
        transaction: 2_147_483_647,
        ..FIRST
    };
    run_at(&rt, rt.alloc(), last_transaction, AT_THE_LAST_TRANSACTION);
    let one_link_left = Numbers {
        link: MAX_NUMBER - 1,
        ..FIRST
    };
    run_at(&rt, rt.alloc(), one_link_left, LAST_LINKS);
}
