//! Whether the sessions of a server are persistent (RFC 8881, section 2.10.6.5).
ghost use Rattle.std.specs.Prelude.{◌≡◌, ℕ, List, Option};
ghost use Rattle.who_book.specs.Content.{Content};
ghost use Rattle.nfs_ops.specs.Operations.{Operation};
ghost use Rattle.compound_run.specs.Realm.{Realm};
ghost use Rattle.compound_run.specs.Context.{Context, Handles};
ghost use Rattle.compound_run.specs.Operations.{meaning};
ghost use Rattle.compound_run.specs.State.{State, Call, Answers, without_client};
ghost use Rattle.compound_run.specs.InSession.{Reply, AnswersInSession};
ghost use Rattle.compound_laws.specs.Events.{loaded};

/// No operation changes whether sessions are persistent.
pub fn operations_leave_lasting()
    ensures { (c : Context) (h : Handles) (op : Operation) (r : Realm) →
        ((meaning c h op).effect r).lasting ≡ r.lasting }
{}

/// Nor does a call, without sessions (`bare`) or with them (`in_session`), however its operations end. Nor does loading
/// a book (`book`), or expiring a client (`expired`). It is therefore fixed when a server begins.
pub fn calls_leave_lasting()
    ensures bare { (old : State) (call : Call) (results : Option (List ℕ)) (new : State) →
        Answers old call results new → new.realm.lasting ≡ old.realm.lasting }
    ensures in_session { (old : State) (call : Call) (reply : Reply) (new : State) →
        AnswersInSession old call reply new → new.realm.lasting ≡ old.realm.lasting }
    ensures book { (book : Content) (old : State) → (loaded book old).realm.lasting ≡ old.realm.lasting }
    ensures expired { (client : ℕ) (old : State) → (without_client client old).realm.lasting ≡ old.realm.lasting }
{}
