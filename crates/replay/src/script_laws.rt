//! The output of scripts, as runs of the central system: a law, a public function whose clauses
//! range over all sites and scripts.

ghost use Rattle.std.specs.Prelude.{ℕ, List};
ghost use Rattle.site_rules.specs.Site.{SiteState};
ghost use Rattle.replay.specs.ScriptRun.{ScriptRun, PrintedSchedulesAreRight};
ghost use Rattle.replay.specs.ScriptRun.{PrintedCallsAreInOrder, PrintedCallsKeepPointsInStep};

use meaning::exact_schedules;
use site_core::{
    answered_schedules_are_right, histories_keep_points_in_step, histories_send_calls_in_order,
    replies_are_their_steps, runs_are_legal, runs_join, runs_keep_the_site,
};

/// Ties the output to a run of the central system, for every site and every script of any bytes.
/// The run begins in the opening state. The printed schedules are those that the run's Answers
/// handed out. The printed calls are those that its Sends sent, all of them and in the same order.
/// In each such run every printed schedule is right for the state of its point when it was
/// requested. The printed calls for a point have the numbers 0, 1, .., each perhaps several times
/// before the next. A point may obey any of these calls, but each confirmed one at least once. Then
/// it has the ChargePointMaxProfiles and TxDefaultProfiles that the central system had for it after
/// the last obeyed call. Only the moments of their installs may differ, and the profiles of an
/// exempt id. Such an id is that of a transaction's own profile, until a profile with it is
/// installed or all with it are cleared.
pub fn scripts_are_runs()
    ensures runs { (site : SiteState) (script : List ℕ) → ScriptRun site script }
    ensures right { (site : SiteState) (script : List ℕ) (run : ScriptRun site script)
        → PrintedSchedulesAreRight site script run }
    ensures order { (site : SiteState) (script : List ℕ) → PrintedCallsAreInOrder site script }
    ensures obeying { (site : SiteState) (script : List ℕ) (run : ScriptRun site script)
        → PrintedCallsKeepPointsInStep site script run }
{
    // These calls make the laws available to the proof. They do nothing at run time.
    exact_schedules();
    runs_join();
    runs_keep_the_site();
    replies_are_their_steps();
    runs_are_legal();
    answered_schedules_are_right();
    histories_send_calls_in_order();
    histories_keep_points_in_step();
}
