//! The tick and the time of a change.

ghost use Rattle.std.specs.Prelude.{◌≡◌};
ghost use Rattle.node_tree.specs.Changes.{epoch, first_access};

use nfs_types::{Limits, Moment};

/// The moment of the initial objects.
pub const EPOCH: Moment = Moment {
    seconds: 0,
    nanoseconds: 0,
};

/// The tick and the time of a change. The changes of one operation share them.
#[derive(Clone, Copy, Debug, PartialEq, Eq)]
pub struct At {
    /// The change attribute of the changed objects (RFC 8881, section 5.8.1.4).
    pub tick: u64,
    /// The times of the changed objects (RFC 8881, sections 5.8.2.37 to 5.8.2.43).
    pub moment: Moment,
}

/// The first time of the last access of an object that is made at this moment. `None`: it is `time_modify`.
pub fn first_access(limits: Limits, moment: Moment) -> Option<Moment>
    ensures { result ≡ first_access limits moment }
{
    if limits.times() { Some(moment) } else { None }
}

/// The tick and the time of an initial object.
pub(crate) fn from_start(tick: u64) -> At
    ensures { result ≡ record { tick = tick; moment = epoch } }
{
    At {
        tick,
        moment: EPOCH,
    }
}
