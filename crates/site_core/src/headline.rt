//! The headline of this repository, as laws: public functions with empty bodies, whose clauses
//! range over all runs.

ghost use Rattle.std.specs.Prelude.{◌≡◌, ◌⊎◌, ℕ, ◌+◌, ◌≤◌, false, List, ◌∷◌, ◌++◌, Some, IsTrue, All, Contains};
ghost use Rattle.meaning.specs.declared.ask.Ask.{Ask};
ghost use Rattle.site_rules.specs.Site.{SiteState};
ghost use Rattle.point_book.specs.Book.{BookState};
ghost use Rattle.site_core.specs.declared.numbers.Numbers.{Numbers};
ghost use Rattle.site_core.specs.declared.step.Step.{Step};
ghost use Rattle.site_core.specs.declared.reply.Reply.{Reply};
ghost use Rattle.site_core.specs.declared.outcome.Outcome.{Outcome};
ghost use Rattle.site_core.specs.State.{MachineState, Kept, ScheduleAnswer, opening_at};
ghost use Rattle.site_core.specs.Requests.{request_of};
ghost use Rattle.site_core.specs.Step.{Steps, is_event};
ghost use Rattle.site_core.specs.Step.{RepliesAreTheirSteps, OnlyEventsWantMemory};
ghost use Rattle.site_core.specs.Run.{Runs};
ghost use Rattle.site_core.specs.History.{Event, Legal, history_of, answered_event};
ghost use Rattle.site_core.specs.History.{takes_of, answers_of, kept_of, IsAnswered};
ghost use Rattle.site_core.specs.StoredHistory.{ReplaysAreOne, ReplaysAreLegal};
ghost use Rattle.site_core.specs.StoredHistory.{HistoriesCanBeStored, ReplaysGoOn};
ghost use Rattle.site_core.specs.Counts.{NumbersTellOfHistories};
ghost use Rattle.site_core.specs.Headline.{IsRightAfter, AnswersAreRight};
ghost use Rattle.site_core.specs.Headline.{OpeningsKeepRight, RequestsStayRight};
ghost use Rattle.site_core.specs.Headline.{RequestsHaveTheirBooks, AnswersGoOnRight};
ghost use Rattle.site_core.specs.Headline.{StoppedRequestsStayAnswered, RequestsBalance};

/// The law that the steps that a run made are a legal history.
pub fn runs_are_legal()
    ensures { (old new : MachineState) (steps : List Step) (outcomes : List Outcome)
        → Runs old steps outcomes new → Legal old (history_of steps outcomes) new }
{}

/// The law that in every legal history from an opening state each Answer that hands out an answer
/// follows exactly one Take of its number.
pub fn answers_follow_one_take()
    ensures { (site : SiteState) (numbers : Numbers) (earlier later : List Event) (number : ℕ)
        (book : BookState) (ask : Ask) (answer : ScheduleAnswer) (new : MachineState)
        → Legal (opening_at site numbers)
        (earlier ++ answered_event number book ask answer ∷ later) new
        → takes_of number earlier ≡ 1 }
{}

/// The law that each answer that is handed out is right, in every legal history from an opening
/// state. It is right for the `Ask` of its one Take, and for the book that the point had when that
/// was made.
pub fn answers_are_right()
    ensures { (site : SiteState) (numbers : Numbers) (earlier later : List Event) (number : ℕ)
        (book : BookState) (ask : Ask) (answer : ScheduleAnswer) (new : MachineState)
        → Legal (opening_at site numbers)
        (earlier ++ answered_event number book ask answer ∷ later) new
        → IsRightAfter (opening_at site numbers) earlier number book ask answer }
{}

/// The headline. In every run from an opening state, each schedule that is handed out is right for
/// the book that its point had when the request was taken. The run may have any steps, in any
/// order.
pub fn answered_schedules_are_right()
    ensures { (site : SiteState) (numbers : Numbers) (steps : List Step) (outcomes : List Outcome)
        (state : MachineState) → Runs (opening_at site numbers) steps outcomes state
        → AnswersAreRight (opening_at site numbers) steps outcomes }
{}

/// The law that a run after another is one run of the steps of both: a machine may run in parts.
pub fn runs_join()
    ensures { (old middle new : MachineState) (steps more : List Step)
        (outcomes others : List Outcome)
        → Runs old steps outcomes middle → Runs middle more others new
        → Runs old (steps ++ more) (outcomes ++ others) new }
{}

/// The law that an answer without an event changes nothing: of the steps that are made, only events
/// lead to another state.
pub fn only_events_change_the_state()
    ensures { (old new : MachineState) (step : Step) (reply : Reply)
        → Steps old step reply new → is_event old reply ≡ false → new ≡ old }
{}

/// The laws of stored histories, in which a Compile has the answer that it brought. Each has one
/// replay, and so one state at its end. The replay is a legal history if a compiler may give these
/// answers, and every legal history is the replay of a stored one. One more event is replayed after
/// those before it.
pub fn stored_histories_replay()
    ensures one { ReplaysAreOne }
    ensures legal { ReplaysAreLegal }
    ensures stored { HistoriesCanBeStored }
    ensures more { ReplaysGoOn }
{}

/// The law that no run changes the site.
pub fn runs_keep_the_site()
    ensures { (old new : MachineState) (steps : List Step) (outcomes : List Outcome)
        → Runs old steps outcomes new → new.site ≡ old.site }
{}

/// The law that the events of a legal history determine the points after it. Two states that it may
/// lead to have the same points, and differ only in answers that aren't handed out yet.
pub fn points_follow_events()
    ensures { (old one other : MachineState) (events : List Event)
        → Legal old events one → Legal old events other → one.points ≡ other.points }
{}

/// The law that no request is lost and none is answered twice. In every legal history from an
/// opening state a number is taken at most once, and then its request is answered or still kept.
pub fn requests_are_answered_once()
    ensures once { (site : SiteState) (numbers : Numbers) (events : List Event)
        (state : MachineState) → Legal (opening_at site numbers) events state
        → (number : ℕ) → takes_of number events ≤ 1 }
    ensures kept { (site : SiteState) (numbers : Numbers) (events : List Event)
        (state : MachineState) → Legal (opening_at site numbers) events state
        → (number : ℕ)
        → takes_of number events ≡ answers_of number events + kept_of number state.requests }
{}

/// The law that a request with an answer keeps it, with its book and its `Ask`, until the answer is
/// handed out.
pub fn answers_stay()
    ensures { (old new : MachineState) (events : List Event) (number : ℕ) (kept : Kept)
        (answer : ScheduleAnswer) → Legal old events new
        → request_of number old.requests ≡ Some kept → kept.answer ≡ Some answer
        → (request_of number new.requests ≡ Some kept)
        ⊎ Contains events (answered_event number kept.book kept.ask answer) }
{}

/// The law that each kept request has its answer once the central system is stopped.
pub fn stopped_requests_are_answered()
    ensures { (site : SiteState) (numbers : Numbers) (events : List Event) (state : MachineState)
        → Legal (opening_at site numbers) events state → IsTrue state.is_stopped
        → All IsAnswered state.requests }
{}

/// The laws of requests along every legal history, from any state in which all kept requests are
/// right, as at the opening. The history leads to such a state again. Each kept request has the
/// book that its point had at its Take, or that the old state kept for it. Each answer that is
/// handed out is right for that book and the `Ask`. Once the central system is stopped, each kept
/// request has its answer, if that held at first. From any state at all, no request is lost and
/// none is answered twice.
pub fn requests_go_on_from_any_state()
    ensures opening { OpeningsKeepRight }
    ensures stay { RequestsStayRight }
    ensures books { RequestsHaveTheirBooks }
    ensures answers { AnswersGoOnRight }
    ensures answered { StoppedRequestsStayAnswered }
    ensures balance { RequestsBalance }
{}

/// The law that the numbers count a history. Each change of a point's book draws a version of the
/// store, and each Take a request's number. A request is kept from its Take until its answer is
/// handed out.
pub fn numbers_tell_of_histories()
    ensures { NumbersTellOfHistories }
{}

/// The law that each step has only replies of its own, as an Install only Accepted, and that an
/// answer without an event needs no memory.
pub fn replies_are_their_steps()
    ensures own { RepliesAreTheirSteps }
    ensures memory { OnlyEventsWantMemory }
{}
