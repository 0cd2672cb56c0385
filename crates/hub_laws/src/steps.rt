//! Facts that no step of the machine changes.
ghost use Rattle.std.specs.Prelude.{◌≡◌, ◌≤◌};
ghost use Rattle.nfs_hub.specs.Machine.{Event, State, Step};

/// No step of the machine changes whether sessions persist over a restart (RFC 8881, section
/// 2.10.6.5): it is fixed when the hub begins.
pub fn steps_leave_lasting()
    ensures { (event : Event) (old new : State) → Step event old new →
        new.served.state.realm.lasting ≡ old.served.state.realm.lasting }
{}

/// The epoch of the book never falls. A loaded book has the next epoch.
pub fn steps_leave_epochs()
    ensures { (event : Event) (old new : State) → Step event old new →
        old.served.state.settings.epoch ≤ new.served.state.settings.epoch }
{}
