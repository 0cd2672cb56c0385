//! Retries: calls that are sent again (RFC 8881, section 2.10.6.1).
ghost use Rattle.session_slots.specs.Retrying.{AnswersAll, Answering, WithoutRetries};
ghost use Rattle.compound_run.specs.State.{Call, State};
ghost use Rattle.compound_run.specs.InSession.{Reply, RunsCall, fate};
ghost use Rattle.compound_laws.specs.Events.{Event, RunsEvent, event_fate};

/// For every run with sessions over a list of calls, a run over the list without the retries exists. The replies to the
/// rest and the state are equal (`calls`). This also holds if books are loaded and clients expire between the calls,
/// and all of these events stay in the list (`events`). A call is a retry by the caller as sent, whatever book was
/// loaded since it was first answered.
#[tactic(auto, using(session_slots::proofs::Retrying::retries_go))]
pub fn retries_change_nothing()
    ensures calls { (a : Answering Call State Reply) →
        AnswersAll fate RunsCall a.calls a.replies a.old a.new → WithoutRetries fate RunsCall a }
    ensures events { (a : Answering Event State Reply) →
        AnswersAll event_fate RunsEvent a.calls a.replies a.old a.new → WithoutRetries event_fate RunsEvent a }
{}
