//! The log of a hub is replayed after a restart (RFC 8881, section 2.10.6.5).
ghost use Rattle.std.specs.Prelude.{◌≡◌, ◌≤◌, ℕ, true, List, [], Some};
ghost use Rattle.log_entries.specs.Entries.{Entry};
ghost use Rattle.compound_run.specs.Covering.{Covers};
ghost use Rattle.nfs_hub.specs.Answer.{started};
ghost use Rattle.nfs_hub.specs.Machine.{Event, State, BeginLog, Step};
ghost use Rattle.compound_run.specs.State.{State as ServerState};
ghost use Rattle.hub_laws.specs.Kept.{ReplayCovers, Logs, ReplaysAll, log_goes_on};

/// Each step of a hub that has sessions and keeps a log logs entries (`logs`). They are those of
/// the calls that are kept, of a loaded book and of an expired client. Each state that covers the
/// server's before the step can replay them. Every state that they replay to covers the server's
/// after the step. Nothing that is kept over a restart changes without an entry, and no call acts
/// twice.
pub fn what_is_kept_is_logged()
    ensures logs { (event : Event) (old new : State) (log : List ℕ) → log_goes_on event →
        old.served.in_sessions ≡ true → old.served.log ≡ Some log → Step event old new →
        (new.served.in_sessions ≡ true) × Logs log old.served new.served }
    ensures begun { (old new : State) → Step BeginLog old new →
        (new.served.state ≡ old.served.state) × (new.served.in_sessions ≡ old.served.in_sessions) ×
        (new.served.log ≡ Some []) }
{}

/// A server that starts covers every server that the state it was given covers. It forgets that
/// state's lines.
pub fn a_start_covers()
    ensures { (q s : ServerState) → Covers q s → Covers (started q).state s }
{}

/// Replaying entries keeps the facts that a checkpoint requires of a server. The persistence of its sessions over a
/// restart is unchanged (RFC 8881, section 2.10.6.5), and the epoch of its book never falls.
pub fn replays_leave_what_lasts()
    ensures lasting { (entries : List Entry) (old new : ServerState) → ReplaysAll entries old new →
        new.realm.lasting ≡ old.realm.lasting }
    ensures epochs { (entries : List Entry) (old new : ServerState) → ReplaysAll entries old new →
        old.settings.epoch ≤ new.settings.epoch }
{}
