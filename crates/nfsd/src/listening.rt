//! Serving by the options.
use crate::book_file::BookFile;
use crate::clock::SystemClock;
use crate::home::home_fault;
use crate::profile::{NotOf, limits_of};
use crate::stored::open_folder;
use crate::streams::Served;
use crate::trail_file::TrailFile;
use crate::{Fault, TURNS, ended, hub_fault};
use kept_server::{KeptEnd, Site, Start, serve_kept};
use nfs_hub::{Hub, HubFault, ServeEnd};
use nfs_streams::{AllEnd, Limits, serve_all};
use nfsd_options::Options;
use std::alloc::Global;
use std::hash::RandomState;
use std::rt::{Clock, Files};
use who_book::Book;

/// Opens the file of the trail, if the options name one.
pub(crate) fn open_trail<'a, R: Files + Alloc + Clock>(
    rt: &'a R,
    options: &Options<'a>,
) -> Result<Option<TrailFile<'a, R>>, Fault> {
    let Some(path) = options.trail else {
        return Ok(None);
    };
    match TrailFile::start(rt, path, options) {
        Ok(trail) => Ok(Some(trail)),
        Err(fault) => Err(Fault::Trail(fault)),
    }
}

/// The limits of serving. Several connections are served at a time, as many as the profile permits, or one after the
/// other in one place. In the first
/// case a quiet connection is closed if another one waits.
fn limits(options: &Options<'_>) -> Limits {
    Limits {
        places: if options.concurrent {
            limits_of(options.profile).connections()
        } else {
            1
        },
        connections: u64::from(options.connections),
        reads: TURNS,
        turns: u64::MAX,
        makes_room: options.concurrent,
        leases: options.leases,
    }
}

/// The outcome of serving. The value is whether each connection ended after a whole record. An error is the reason why
/// no more connections can be served.
fn outcome<R: Files + Alloc + Eprint + Clock>(
    rt: &R,
    served: &mut Served<'_, R>,
    end: AllEnd,
) -> Result<bool, Fault> {
    match end {
        AllEnd::Served => Ok(served.are_whole()),
        AllEnd::Turns => Ok(ended(rt, ServeEnd::Turns)),
        AllEnd::Wait | AllEnd::Store if served.has_trail_fault() => {
            Err(Fault::Trail(served.take_trail_fault()))
        }
        AllEnd::Wait => Err(Fault::Waiting(served.take_wait_failure())),
        AllEnd::Keep => Err(Fault::Trail(served.take_trail_fault())),
        AllEnd::Store => Err(served.store_stop()),
        AllEnd::Memory => Err(hub_fault()),
    }
}

/// Serves over the store of a folder. The value is whether each connection ended after a whole record. An error is the
/// reason why no more connections can be served.
pub(crate) fn serve_stored<'r>(
    rt: &'r HostRuntime,
    alloc: Global,
    options: &'r Options<'r>,
    path: &str,
    file: BookFile<'r, HostRuntime>,
    book: Book,
    hasher: RandomState,
) -> Result<bool, Fault> {
    let folder = match open_folder(rt, path) {
        Ok(folder) => folder,
        Err(fault) => return Err(home_fault(rt, options).unwrap_or(fault)),
    };
    let mut served = Served::new(rt, alloc, options, Some(folder), file);
    let start = Start {
        limits: limits_of(options.profile),
        book,
        identity: served.new_identity(),
        hasher,
    };
    let clock = SystemClock::new(rt);
    let end = serve_kept(alloc, alloc, &mut served, &clock, start, limits(options));
    match end {
        KeptEnd::Ended(end) => outcome(rt, &mut served, end),
        KeptEnd::Unopened(fault) => Err(served.unopened(fault)),
        KeptEnd::Unready => Err(served.unready()),
        KeptEnd::Exhausted => Err(Fault::Hub(HubFault::Exhausted as u8)),
        KeptEnd::Memory => Err(hub_fault()),
        KeptEnd::OtherProfile => Err(Fault::Profile(NotOf(options.profile))),
    }
}

/// Serves a root alone, without a store. The value is that of [`serve_stored`].
pub(crate) fn serve_unstored<'r>(
    rt: &'r HostRuntime,
    alloc: Global,
    options: &'r Options<'r>,
    file: BookFile<'r, HostRuntime>,
    book: Book,
    hasher: RandomState,
) -> Result<bool, Fault> {
    let Ok(mut hub) = Hub::with_limits(alloc, limits_of(options.profile), book, hasher) else {
        return Err(hub_fault());
    };
    let mut served = Served::new(rt, alloc, options, None, file);
    if !served.begin() {
        return Err(served.unready());
    }
    let clock = SystemClock::new(rt);
    let end = serve_all(alloc, &mut hub, &mut served, &clock, None, limits(options));
    outcome(rt, &mut served, end)
}
