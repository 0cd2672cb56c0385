//! The open files in every state that a server reaches (RFC 8881, section 9.1).
ghost use Rattle.std.specs.Prelude.{◌≡◌, ℕ, true, List, Option, Ok};
ghost use Rattle.who_book.specs.Content.{Content};
ghost use Rattle.nfs_ops.specs.Operations.{Operation};
ghost use Rattle.nfs_ops.specs.Results.{Outcome};
ghost use Rattle.node_tree.specs.World.{World};
ghost use Rattle.node_tree.specs.Sound.{IsSound};
ghost use Rattle.compound_run.specs.Realm.{Realm, unopened};
ghost use Rattle.compound_run.specs.Context.{Context, Handles};
ghost use Rattle.compound_run.specs.ClientState.{ClientState, opens_fit};
ghost use Rattle.compound_run.specs.Operations.{meaning};
ghost use Rattle.compound_run.specs.Runs.{outcome};
ghost use Rattle.compound_run.specs.State.{State, Call, Answers, restored, without_client};
ghost use Rattle.compound_run.specs.InSession.{Reply, AnswersInSession};
ghost use Rattle.compound_laws.specs.LiveOpens.{OpensHold};
ghost use Rattle.compound_laws.specs.Events.{loaded};

/// The law of open files holds when a server begins. It holds in a new world, which has none (`fresh`), and after a
/// restart with open files that fit their world (`restarted`).
pub fn opens_hold_at_first()
    ensures fresh { (w : World) → IsSound w → OpensHold (unopened w) }
    ensures restarted { (w : World) (k : ClientState) (book : Content) (capacity : ℕ) →
        IsSound w → opens_fit w k ≡ true → OpensHold (restored w k book capacity).realm }
{}

/// Each operation that is OK preserves the law: each open is of an existing file, and at most 4,096 opens exist. An
/// operation that isn't OK leaves the realm unchanged.
pub fn operations_keep_opens()
    ensures { (c : Context) (h : Handles) (op : Operation) (r : Realm) (o : Outcome) →
        OpensHold r → outcome (meaning c h op) r ≡ Ok o → OpensHold ((meaning c h op).effect r) }
{}

/// Each call therefore preserves the law, without sessions (`bare`) or with them (`in_session`), however its operations
/// end. Loading a book (`book`) and expiring a client (`expired`) preserve it too. The law thus holds in every state
/// that a server reaches.
pub fn calls_keep_opens()
    ensures bare { (old : State) (call : Call) (results : Option (List ℕ)) (new : State) →
        OpensHold old.realm → Answers old call results new → OpensHold new.realm }
    ensures in_session { (old : State) (call : Call) (reply : Reply) (new : State) →
        OpensHold old.realm → AnswersInSession old call reply new → OpensHold new.realm }
    ensures book { (book : Content) (old : State) → OpensHold old.realm → OpensHold (loaded book old).realm }
    ensures expired { (client : ℕ) (old : State) → OpensHold old.realm → OpensHold (without_client client old).realm }
{}
