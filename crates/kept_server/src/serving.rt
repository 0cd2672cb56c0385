//! A run of a server whose state is kept.
ghost use Rattle.std.specs.Prelude.{◌≡◌};
ghost use Rattle.kept_server.specs.Beginning.{Before};
ghost use Rattle.kept_server.specs.Kept.{ServesKept};

use crate::opening::{Start, open_kept};
use crate::site::Site;
use call_store::StoreFault;
use nfs_hub::Clock;
use nfs_streams::{AllEnd, Limits, serve_all};
use std::alloc::{Allocator, Global};

/// How a run ended.
#[derive(Clone, Copy, PartialEq, Eq)]
pub enum KeptEnd {
    /// Serving has ended, with this end.
    Ended(AllEnd),
    /// The store couldn't be opened, or the first checkpoint or the book of this start couldn't be
    /// kept. Nothing was answered.
    Unopened(StoreFault),
    /// The site couldn't begin. Nothing was answered.
    Unready,
    /// An allocation failed, for the hub or for the entry of the book. Nothing was answered.
    Memory,
    /// No epoch is left for a book other than the kept one. Nothing was answered.
    Exhausted,
    /// The store is of another profile than this start's. Nothing was answered, and what is kept is
    /// unchanged.
    OtherProfile,
}

/// Opens the store of a site's disk, and serves the site's streams over it. A new store begins with only a root. If
/// another book was kept, the book of this start is loaded, and kept at once. Then the site begins, and [`serve_all`]
/// serves its streams. The leases of all clients begin in the second of the clock in which the store is opened.
///
/// **The state from which a start resumes has everything that was done for each reply of the earlier runs.** They may
/// be interrupted at any moment. The exception is a checksum collision. A refused store is left as it was.
pub fn serve_kept<A: Allocator + Copy, S: Site<A>, C: Clock>(
    alloc: A,
    global: Global,
    site: &mut S,
    clock: &C,
    start: Start,
    limits: Limits,
) -> KeptEnd
    ensures { (before : Before) →
        ServesKept A before start.limits start.book limits result (S.acts site.old) (S.acts site.new) }
{
    let mut kept = match open_kept(site, alloc, global, clock.second(), start) {
        Ok(kept) => kept,
        Err(end) => return end,
    };
    if !site.begin() {
        return KeptEnd::Unready;
    }
    let end = serve_all(alloc, &mut kept.hub, site, clock, Some(kept.store), limits);
    KeptEnd::Ended(end)
}
