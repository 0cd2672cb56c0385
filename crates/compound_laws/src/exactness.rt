//! When an operation is OK, when it is refused access, and when it may be delayed.
ghost use Rattle.std.specs.Prelude.{ℕ, ◌≡◌, ◌≢◌, ◌↔◌, ◌⊎◌, if◌then◌else◌, true, false, List, ◌∷◌, ◌++◌, Option, Some};
ghost use Rattle.std.specs.Prelude.{None, Result, Ok, Err, unwrap_or};
ghost use Rattle.rpc_record.specs.Identity.{Identity};
ghost use Rattle.nfs_types.specs.declared.status.Status.{Status};
ghost use Rattle.nfs_types.specs.declared.status.Status.TheVariants as statuses;
ghost use Rattle.xdr_wire.specs.Xdr.{Value};
ghost use Rattle.nfs_ops.specs.Forms.{readdir_args};
ghost use Rattle.nfs_ops.specs.Operations.{Operation, Known};
ghost use Rattle.nfs_ops.specs.declared.OpKind.TheVariants as kinds;
ghost use Rattle.nfs_ops.specs.Results.{Outcome};
ghost use Rattle.node_tree.specs.Judged.{judged_of};
ghost use Rattle.node_tree.specs.Sound.{IsSound};
ghost use Rattle.access_rows.specs.Rows.{Demands};
ghost use Rattle.access_rows.specs.declared.demand.Demand.{Demand};
ghost use Rattle.compound_run.specs.Realm.{Realm};
ghost use Rattle.compound_run.specs.Context.{Context, Handles};
ghost use Rattle.compound_run.specs.Sight.{Sight, whole};
ghost use Rattle.compound_run.specs.Questions.{Question, Row, failure, all_granted};
ghost use Rattle.compound_run.specs.Meaning.{Meaning};
ghost use Rattle.compound_run.specs.Operations.{meaning, may_delay};
ghost use Rattle.compound_run.specs.Runs.{Point, Steps, outcome, traced};
ghost use Rattle.compound_run.specs.Exact.{ArePassed, ArePassedOrSuffice, IsRefusedByRow, EndsInRefusal};
ghost use Rattle.compound_laws.specs.EntriesExact.{GivesExactly, IsUnlisted, MeetsRefused};
ghost use Rattle.compound_laws.specs.RowsAsked.{first_of, second_of, HasNoFirst, HasNoSecond, IsAmong, IsOntoItself};
ghost use Rattle.compound_laws.specs.RowsAsked.{SomeSuffices, rows_of, table_rows};
ghost use Rattle.compound_laws.specs.Lines.{steps_of, line_of};
ghost use Rattle.compound_laws.specs.WrongRows.{reading_lookup, asking_getfh, disclosing_remove};

/// Questions after a row of demands decide the outcome only if the access control lists (ACLs) grant each of its
/// demands. Otherwise the outcome is ACCESS.
pub fn rows_decide()
    ensures { (caller : Identity) (s : Sight) (before rest : List Question) (demands : Sight → List (Option Demand))
        → ArePassed caller s before →
        failure caller s (before ++ Row demands ∷ rest)
        ≡ (if all_granted s.lists caller (demands s) then failure caller s rest else Some statuses.Access) }
{}

/// An operation is OK if and only if each of its questions passes, up to a question that suffices.
pub fn ok_is_exact()
    ensures { (caller : Identity) (s : Sight) (questions : List Question) →
        (failure caller s questions ≡ None) ↔ ArePassedOrSuffice caller s questions }
{}

/// An operation answers ACCESS if and only if a row of demands is its first question that fails (`exact`). Its last
/// line is then the DENY line of the first demand of that row that isn't granted. It names the first access control
/// entry (ACE) that denies it, else the lowest bit that no ACE allows (`access`). By the definition of a step, nothing
/// changes if the outcome isn't OK.
pub fn access_is_exact()
    ensures exact { (m : Meaning) (r : Realm) →
        (outcome m r ≡ Err statuses.Access) ↔ IsRefusedByRow m.caller (whole r) m.questions }
    ensures access { (m : Meaning) (r : Realm) → outcome m r ≡ Err statuses.Access →
        (row : IsRefusedByRow m.caller (whole r) m.questions)
        × EndsInRefusal m.caller m.number (judged_of r.world) (row.demands (whole r)) (traced m r) }
{}

/// The rows that an operation evaluates are those of the table of demands, in order, and no others (`rows`). Its
/// questions are its line: the same statuses and faults in the same order, with each row at its place (`line`). An
/// operation that isn't supported, is illegal or can't be decoded has no row.
pub fn rows_are_asked_exactly()
    ensures rows { (c : Context) (h : Handles) (op : Operation) →
        rows_of (meaning c h op).questions ≡ table_rows c h op }
    ensures line { (c : Context) (h : Handles) (op : Operation) →
        steps_of (meaning c h op).questions ≡ line_of c h op }
{}

/// This is false of three wrong lists of questions. LOOKUP also demands READ_DATA (`lookup`), GETFH has a row
/// (`getfh`), or REMOVE reveals that a directory isn't empty before its second row is evaluated (`remove`).
pub fn wrong_rows_are_refused()
    ensures lookup { (c : Context) (h : Handles) (name : List ℕ) →
        rows_of (reading_lookup name c h) ≡ table_rows c h (Known kinds.Lookup name) → ⊥ }
    ensures getfh { (c : Context) (h : Handles) →
        rows_of (asking_getfh c h) ≡ table_rows c h (Known kinds.GetFh tt) → ⊥ }
    ensures remove { (c : Context) (h : Handles) (name : List ℕ) →
        steps_of (disclosing_remove name c h) ≡ line_of c h (Known kinds.Remove name) → ⊥ }
{}

/// Each row that the table of demands has for an operation is among those that it evaluates. This holds of the first
/// row, and of the second, which depends on the objects of the operation's names. Otherwise the table has no row for
/// it, whatever the facts are.
pub fn each_row_is_asked()
    ensures first { (c : Context) (h : Handles) (op : Operation) →
        IsAmong (first_of c h op) (rows_of (meaning c h op).questions) ⊎ HasNoFirst op }
    ensures second { (c : Context) (h : Handles) (op : Operation) →
        IsAmong (second_of c h op) (rows_of (meaning c h op).questions) ⊎ HasNoSecond op }
{}

/// An operation that is OK was therefore granted each demand of its rows. One row is excepted: the second of a RENAME
/// whose names belong to one object, which changes nothing.
pub fn ok_is_granted()
    ensures first { (c : Context) (h : Handles) (op : Operation) (r : Realm) (o : Outcome) →
        outcome (meaning c h op) r ≡ Ok o →
        all_granted (judged_of r.world) c.caller (first_of c h op (whole r)) ≡ true }
    ensures second { (c : Context) (h : Handles) (op : Operation) (r : Realm) (o : Outcome) →
        outcome (meaning c h op) r ≡ Ok o →
        (all_granted (judged_of r.world) c.caller (second_of c h op (whole r)) ≡ true) ⊎ IsOntoItself h op (whole r) }
{}

/// If a row isn't granted, the answer is the fault of a question before it, else ACCESS; unless a question before it
/// suffices.
pub fn refused_is_access()
    ensures { (m : Meaning) (r : Realm) (before after : List Question) (row : Sight → Demands) →
        m.questions ≡ before ++ Row row ∷ after → all_granted (judged_of r.world) m.caller (row (whole r)) ≡ false →
        (outcome m r ≡ Err (unwrap_or (failure m.caller (whole r) before) statuses.Access))
        ⊎ SomeSuffices (whole r) before }
{}

/// An operation that allocates no memory never answers DELAY. These are all but CREATE, LINK, NVERIFY, OPEN, RENAME,
/// SETATTR, VERIFY and WRITE. Nor does an operation without place or room.
pub fn others_never_delay()
    ensures { (c : Context) (op : Operation) (old new : Point) (result : Result Outcome Status) →
        may_delay c op ≡ false → Steps c op old result new → result ≢ Err statuses.Delay }
{}

/// Each entry that READDIR returns has exactly its attributes. One that a permission governs is present if and only if
/// it is requested and the ACL of the entry's object grants that permission. Every other supported one is present if
/// and only if it is requested.
pub fn readdir_gives_exactly()
    ensures { (c : Context) (h : Handles) (v : Value readdir_args) (r : Realm) (o : Outcome) → IsSound r.world →
        outcome (meaning c h (Known kinds.ReadDir v)) r ≡ Ok o → GivesExactly c h v (whole r) o }
{}

/// READDIR answers ACCESS if and only if LIST_DIRECTORY is demanded and isn't granted, or a refused entry is reached
/// without rdattr_error requested.
pub fn readdir_is_refused_exactly()
    ensures { (c : Context) (h : Handles) (v : Value readdir_args) (r : Realm) →
        (outcome (meaning c h (Known kinds.ReadDir v)) r ≡ Err statuses.Access) ↔
        (IsUnlisted c h v (whole r) ⊎ MeetsRefused c h v (whole r)) }
{}
