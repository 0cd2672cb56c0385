//! Logged calls are replayed when a server starts (RFC 8881, section 2.10.6.5).
//!
//! The state after them covers the server's: both are the same, except that slots may lag.
ghost use Rattle.std.specs.Prelude.{◌≡◌, ◌⊎◌, ℕ, true, false, List, IsSome};
ghost use Rattle.session_slots.specs.Registry.{Session};
ghost use Rattle.session_slots.specs.Retrying.{Runs as IsRun};
ghost use Rattle.who_book.specs.Content.{Content};
ghost use Rattle.access_guard.specs.Epochs.{next_epoch};
ghost use Rattle.access_guard.specs.Log.{Log};
ghost use Rattle.compound_run.specs.Context.{Context};
ghost use Rattle.compound_run.specs.Runs.{Point, Given, Runs};
ghost use Rattle.compound_run.specs.Settings.{Settings};
ghost use Rattle.compound_run.specs.State.{State, Call, without_client};
ghost use Rattle.compound_run.specs.InSession.{Reply, RunsCall, fate};
ghost use Rattle.compound_run.specs.Covering.{Covers, with_sessions};
ghost use Rattle.compound_run.specs.Keeping.{keeps};
ghost use Rattle.compound_run.specs.Replaying.{Replays, IsNumbered, ready};
ghost use Rattle.compound_run.specs.Delayed.{delayed_in};
ghost use Rattle.compound_run.specs.Delaying.{AnswersDelaying};
ghost use Rattle.compound_run.specs.Recorded.{Answers, RanCall};
ghost use Rattle.compound_run.specs.declared.kept.Ran.{Ran};
ghost use Rattle.compound_laws.specs.Events.{loaded};
ghost use Rattle.compound_laws.specs.Replays.{IsEarlier};

/// Operations after a SEQUENCE run alike over any sessions, and leave these unchanged. Nor do they see the lines before
/// them.
pub fn operations_see_no_session()
    ensures { (sessions : List (ℕ × Session)) (log : Log) (settings : Settings) (c : Context) (n : ℕ) (bytes : List ℕ)
        (old : Point) (results : List Given) (new : Point) → Runs c n bytes old results new →
        (last : Log) × Runs c n bytes
        (record { realm = with_sessions sessions old.realm; log = log; settings = settings; handles = old.handles })
        results
        (record { realm = with_sessions sessions new.realm; log = last; settings = settings; handles = new.handles }) }
{}

/// A call that a server ran is new in each state that covers the server's, and can be replayed in it. It has the same
/// reply, and its end state covers the server's (`again`). After a call that isn't logged, a covering state still
/// covers the server's, unchanged (`idle`).
pub fn kept_calls_run_again()
    ensures again { (q s new : State) (call : Call) (reply : Reply) → Covers q s → IsNumbered call →
        fate s call ≡ IsRun → RunsCall call s reply new →
        (after : State) × Replays call q reply after × Covers after new }
    ensures idle { (q s new : State) (call : Call) (reply : Reply) → Covers q s → IsNumbered call →
        (runs : RunsCall call s reply new) → keeps call s reply new runs ≡ false → Covers q new }
{}

/// A call that a server ran can be replayed in each state that covers the server's. An allocation fails in it at the
/// place of the call's record (`again`). Each replay in that state whose record names the same place ends as the call
/// did. It has the same reply and the same record, and its end state covers the server's (`alike`). Let the call be
/// logged, and an allocation fail at the place of its record. Then the replay names that place, or an earlier operation
/// whose allocation failed (`earlier`).
pub fn replays_end_as_the_call_did()
    ensures again { (q s new : State) (call : Call) (reply : Reply) (ran : Ran) → Covers q s → IsNumbered call →
        fate s call ≡ IsRun → RanCall call s reply ran new →
        (after : State) × AnswersDelaying ran.delayed (ready call q) call reply ran after × Covers after new }
    ensures alike { (q s new after : State) (call : Call) (reply other : Reply) (ran again : Ran) → Covers q s →
        IsNumbered call → fate s call ≡ IsRun → RanCall call s reply ran new →
        Answers (ready call q) call other again after → again.delayed ≡ ran.delayed →
        (other ≡ reply) × (again ≡ ran) × Covers after new }
    ensures earlier { (q s new after : State) (call : Call) (reply other : Reply) (ran again : Ran) → Covers q s →
        IsNumbered call → fate s call ≡ IsRun → RanCall call s reply ran new → ran.kept ≡ true →
        AnswersDelaying ran.delayed (ready call q) call other again after →
        IsEarlier again.delayed ran.delayed ⊎ (again.delayed ≡ ran.delayed) }
{}

/// Let operations run twice from one state, and let both runs fail an allocation of the same operation, or of none.
/// Then they have the same results, and end in the same realm.
pub fn operations_are_determined()
    ensures { (c : Context) (n : ℕ) (bytes : List ℕ) (old : Point) (results others : List Given) (new last : Point) →
        Runs c n bytes old results new → Runs c n bytes old others last → delayed_in results ≡ delayed_in others →
        (results ≡ others) × (new.realm ≡ last.realm) × (new.settings ≡ last.settings) }
{}

/// A covering state still covers the server's after both load a book, and after both expire a client. A book is loaded
/// if an epoch is left for it.
pub fn other_events_cover()
    ensures book { (book : Content) (q s : State) → Covers q s → IsSome (next_epoch s.settings.epoch) →
        Covers (loaded book q) (loaded book s) }
    ensures expired { (client : ℕ) (q s : State) → Covers q s →
        Covers (without_client client q) (without_client client s) }
{}
