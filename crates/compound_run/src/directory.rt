//! A directory that an operation changes.
ghost use Rattle.std.specs.Prelude.{◌≡◌};

use nfs_ops::ChangeInfo;

/// A directory, with its change attribute before the operation (RFC 8881, section 5.8.1.4).
#[derive(Clone, Copy)]
pub(crate) struct Directory {
    pub number: u64,
    pub change: u64,
}

impl Directory {
    /// Its change attribute before and after an operation that takes this tick.
    pub fn changed(self, tick: u64) -> ChangeInfo
        ensures { result ≡ record { before = self.change; after = tick } }
    {
        ChangeInfo {
            before: self.change,
            after: tick,
        }
    }

    /// Its change attribute before and after an operation that takes no tick.
    pub fn unchanged(self) -> ChangeInfo
        ensures { result ≡ record { before = self.change; after = self.change } }
    {
        ChangeInfo {
            before: self.change,
            after: self.change,
        }
    }
}
