//! The machine's laws of outboxes and of points that obey.

ghost use Rattle.std.specs.Prelude.{◌≡◌, ℕ, List, None, Some};
ghost use Rattle.site_core.specs.State.{MachineState, link_of, link_to_send};
ghost use Rattle.site_core.specs.Step.{SendsNothing};
ghost use Rattle.site_core.specs.CallOrder.{OutboxesFollowHistories, CallsAreSentInOrder};
ghost use Rattle.site_core.specs.CallOrder.{CallsAreLeftUnlessConfirmed, RowsFollowHistories};
ghost use Rattle.site_core.specs.CallOrder.{PointsStayInStep, CallsAreSentAsMade};
ghost use Rattle.site_core.specs.CallOrder.{EachCallHasItsMoment, ObeyingPointsStayInStep};
ghost use Rattle.site_core.specs.CallOrder.{ConfirmationsAreEvents, CallsAreObeyedInOrder};
ghost use Rattle.site_core.specs.CallOrder.{PointsFollowHistories, RowsGoOn, CallsGoOnInOrder};
ghost use Rattle.site_core.specs.CallOrder.{CallsAreSentAsKept, CallsStayUnlessConfirmed};
ghost use Rattle.site_core.specs.CallOrder.{CallsBeginAtZero, CallsStayConsecutive};

/// The laws of the calls to each point of a site, along every legal history from an opening state.
/// The point's own events lead from the opening outbox to the present one. The numbers of the calls
/// that Send replies for it begin with 0, and each later one equals the one before it or is one
/// more. Each call that is sent is the one of its number. Call 0 clears all profiles, and call k is
/// the k-th accepted Install, Clear, Audit or RemoteStart of the point. The kept calls are calls 0,
/// 1, .. without the confirmed ones, which are those of the Confirm events, in that order.
pub fn histories_send_calls_in_order()
    ensures outbox { OutboxesFollowHistories }
    ensures order { CallsAreSentInOrder }
    ensures sent { CallsAreSentAsMade }
    ensures calls { CallsAreLeftUnlessConfirmed }
    ensures confirmed { ConfirmationsAreEvents }
{}

/// The same laws from any state of a central system, along every legal history. The point's own
/// events lead from its old state to its new one, and their changes from its old profiles to its
/// new ones. If its calls had consecutive numbers before the history, they have them after it. At
/// the opening they begin with 0, and each confirmed call moves the beginning by one. The numbers
/// of the calls that Send replies for it begin with that of the first unconfirmed call, or the next
/// one. Each later number equals the one before it or is one more. Each call that is sent was
/// unconfirmed in the old state, or was added since. The kept calls are these without those
/// confirmed since.
pub fn histories_go_on_from_any_state()
    ensures points { PointsFollowHistories }
    ensures rows { RowsGoOn }
    ensures opening { CallsBeginAtZero }
    ensures consecutive { CallsStayConsecutive }
    ensures order { CallsGoOnInOrder }
    ensures sent { CallsAreSentAsKept }
    ensures calls { CallsStayUnlessConfirmed }
{}

/// The laws of the profiles of each point of a site, along every legal history from an opening
/// state. The point's own events lead from no rows to those that the machine has for it. Each call
/// has its moments in the history. Those of call k begin when it was added, as the k-th accepted
/// one, and end at the next one. Those of call 0 are before the first. A point that obeys its calls
/// in the order of sending is in step with the machine: its ChargePointMaxProfiles and
/// TxDefaultProfiles are those that the machine had for it at each moment of the last of these
/// calls. Only their moments of install may differ, and the profiles of an exempt id. Such an id is
/// that of a transaction's own profile, until a profile with it is installed or all with it are
/// cleared. The same holds of a point that obeys the calls sent to it, and each confirmed one at
/// least once: it obeys them in sending order. Sendings and replies may be lost.
pub fn histories_keep_points_in_step()
    ensures rows { RowsFollowHistories }
    ensures moments { EachCallHasItsMoment }
    ensures lasting { PointsStayInStep }
    ensures obeyed { CallsAreObeyedInOrder }
    ensures obeying { ObeyingPointsStayInStep }
{}

/// The law that nothing is missed if a Send is made only if `link_to_send` has a link, and over
/// that one. It is the point's present link. If it has none, a Send over any link is refused, or
/// replies Nothing and changes nothing.
pub fn skipped_sends_send_nothing()
    ensures present { (state : MachineState) (point : List ℕ) (link : ℕ)
        → link_to_send state point ≡ Some link → link_of state point ≡ Some link }
    ensures nothing { (state : MachineState) (point : List ℕ) (link : ℕ)
        → link_to_send state point ≡ None → SendsNothing state point link }
{}
