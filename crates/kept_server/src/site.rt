//! The place where a server runs: its disk, and its streams once the disk's store is open.
ghost use Rattle.std.specs.Prelude.{◌≡◌, []};
ghost use Rattle.nfs_streams.specs.Acts.{Adds};

use nfs_streams::Streams;
use std::alloc::Allocator;

/// Streams whose disk is opened first. The streams aren't called before `begin`.
pub trait Site<A: Allocator + Copy>: Streams<A> {
    /// The store is open. From now on the site listens, and reports so. `false`: it can't, and isn't called again. It
    /// is called at most once, and doesn't call the disk.
    fn begin(&mut self) -> bool
        ensures { Adds (Self.acts self.old) (Self.acts self.new) [] };
}
