//! The streams that are served: sockets, the files of the store, the file of the trail, and the file of the book.
use crate::addresses::{announce, listen_on_all};
use crate::book_file::BookFile;
use crate::clock::steady_time;
use crate::listening::open_trail;
use crate::metrics_file::MetricsFile;
use crate::near_limits::NearLimits;
use crate::sockets::Sockets;
use crate::store_use::StoreUse;
use crate::stored::{Folder, stop_of};
use crate::trail_file::{TrailFault, TrailFile};
use crate::{Fault, hub_fault};
use call_store::StoreFault;
use compound_run::Server;
use kept_server::Site;
use nfs_hub::ConnId;
use nfs_streams::{Arrival, Moved, StreamEnd, Streams, Wait};
use nfsd_options::{Options, Profile};
use std::alloc::{AllocError, Allocator, Global};
use std::io;
use std::net::Net;
use std::rt::{Clock, Files};
use store_folder::StoreStop;
use store_journal::{Disk, Identity, LoadFault, Slot};
use store_words::Stop;
use who_book::Book;

/// The sockets, once they listen; the folder of the store and the file of the trail, if the options name them; and the
/// file of the book.
#[derive(Drop)]
pub(crate) struct Served<'a, R: Files> {
    rt: &'a R,
    alloc: Global,
    options: &'a Options<'a>,
    /// `None`: the server doesn't listen yet.
    sockets: Option<Sockets>,
    folder: Option<Folder<'a>>,
    trail: Option<TrailFile<'a, R>>,
    book: BookFile<'a, R>,
    /// How many connections are open.
    open: usize,
    /// `None`: no limit is reported as nearly reached, as in the standard profile.
    near: Option<NearLimits>,
    /// Counts of syncs, and the bytes of the files of the store.
    store_use: StoreUse,
    /// The file of the server's numbers. `None`: the server has no home, or doesn't listen yet.
    metrics: Option<MetricsFile<'a, R>>,
    /// Each connection so far ended after a whole record.
    are_whole: bool,
    /// Why the server can't listen.
    unready: Option<Fault>,
}

/// The limits that are reported as nearly reached: those of the office profile.
fn near_limits(profile: Profile) -> Option<NearLimits> {
    match profile {
        Profile::Standard => None,
        Profile::Office => Some(NearLimits::new()),
    }
}

/// The file of the server's numbers, if the options name a home.
fn open_metrics<'a, R: Files + Alloc + Clock>(
    rt: &'a R,
    alloc: Global,
    options: &Options<'_>,
) -> Result<Option<MetricsFile<'a, R>>, Fault> {
    let Some(home) = options.home else {
        return Ok(None);
    };
    match MetricsFile::new(rt, alloc, home) {
        Ok(metrics) => Ok(Some(metrics)),
        Err(AllocError) => Err(hub_fault()),
    }
}

impl<'a, R: Files + Eprint> Served<'a, R> {
    /// The streams, before the server listens and before the trail is opened.
    pub(crate) fn new(
        rt: &'a R,
        alloc: Global,
        options: &'a Options<'a>,
        folder: Option<Folder<'a>>,
        book: BookFile<'a, R>,
    ) -> Self {
        Served {
            rt,
            alloc,
            options,
            sockets: None,
            folder,
            trail: None,
            book,
            open: 0,
            near: near_limits(options.profile),
            store_use: StoreUse::new(),
            metrics: None,
            are_whole: true,
            unready: None,
        }
    }

    /// Whether each connection so far ended after a whole record.
    pub(crate) fn are_whole(&self) -> bool {
        self.are_whole
    }

    /// The identity of a new store.
    pub(crate) fn new_identity(&self) -> Option<Identity> {
        self.folder.as_ref()?.new_identity()
    }

    /// Why the server can't listen.
    pub(crate) fn unready(&mut self) -> Fault {
        self.unready.take().unwrap_or(Fault::Waiting(None))
    }

    /// Why the store can't be opened or begun.
    pub(crate) fn unopened(&mut self, fault: StoreFault) -> Fault {
        match &mut self.folder {
            Some(folder) => stop_of(self.alloc, folder, fault),
            None => Fault::Store(Stop::Folder(StoreStop::Failed(None))),
        }
    }

    /// Why the store can't be written any more: the disk has failed, or else an allocation.
    pub(crate) fn store_stop(&mut self) -> Fault {
        Fault::Store(Stop::Folder(match &mut self.folder {
            Some(folder) => match folder.take_failure() {
                Some(failure) => StoreStop::Failed(Some(failure)),
                None => StoreStop::Memory,
            },
            None => StoreStop::Failed(None),
        }))
    }

    /// Why the last wait for connections failed.
    pub(crate) fn take_wait_failure(&mut self) -> Option<io::Error> {
        self.sockets.as_mut()?.take_failure()
    }

    /// Whether the trail can't be kept any more.
    pub(crate) fn has_trail_fault(&self) -> bool {
        self.trail.as_ref().is_some_and(|trail| trail.has_fault())
    }

    /// Why the trail can't be kept any more.
    pub(crate) fn take_trail_fault(&mut self) -> TrailFault {
        match self.trail.take() {
            Some(trail) => trail.into_fault(),
            None => TrailFault::Unwritten(None),
        }
    }

    /// Reports the end of a connection on standard error, unless it ended after a whole record. A line that can't be
    /// written is dropped. Connections that are open when serving ends get no line: the end of serving has one.
    fn note(&mut self, end: StreamEnd) {
        if matches!(end, StreamEnd::Ended | StreamEnd::Stopped) {
            return;
        }
        self.are_whole = false;
        let rt = self.rt;
        let _ = eprintln!(rt; "nfsd: end {}", end as u8);
    }
}

impl<R: Files + Net + Alloc + Print + Eprint + Clock> Served<'_, R> {
    /// Opens the trail, listens on each address, and prints the addresses.
    fn listen(&mut self) -> Result<(), Fault> {
        self.trail = open_trail(self.rt, self.options)?;
        self.metrics = open_metrics(self.rt, self.alloc, self.options)?;
        let mut sockets = match Sockets::new(self.rt, self.alloc, &self.options.allow) {
            Ok(sockets) => sockets,
            Err(error) => return Err(Fault::Sockets(error)),
        };
        listen_on_all(self.rt, &mut sockets, self.options)?;
        self.sockets = Some(sockets);
        announce(self.rt, self.options).map_err(Fault::Output)
    }
}

impl<R: Files> Served<'_, R> {
    /// Syncs the lines of a home's trail. `false`: they can't be synced.
    fn sync_trail(&mut self) -> bool {
        match &mut self.trail {
            Some(trail) => trail.sync(),
            None => true,
        }
    }
}

impl<R: Files + Alloc + Clock> Served<'_, R> {
    /// Syncs the lines of a home's trail that are of an earlier second. Returns how long a wait may take: at most a
    /// second while lines aren't synced, or while numbers are written. `None`: the lines can't be synced.
    fn settle_trail(&mut self, how: Wait) -> Option<Wait> {
        let Some(trail) = &mut self.trail else {
            return Some(how);
        };
        if !trail.sync_old() {
            return None;
        }
        if how == Wait::Event && (trail.is_due() || self.metrics.is_some()) {
            return Some(Wait::Second);
        }
        Some(how)
    }
}

/// The files of the store. Without a store each call fails. The trail of a home is synced before the store is.
impl<R: Files + Clock> Disk for Served<'_, R> {
    fn load_current<A: Allocator>(&mut self, alloc: A) -> Result<Option<Vec<u8, A>>, LoadFault> {
        let Some(folder) = &mut self.folder else {
            return Err(LoadFault::Failed);
        };
        let loaded = folder.load_current(alloc)?;
        if let Some(current) = &loaded {
            self.store_use.note_current(current);
        }
        Ok(loaded)
    }

    fn load<A: Allocator>(&mut self, alloc: A, slot: Slot) -> Result<Vec<u8, A>, LoadFault> {
        let Some(folder) = &mut self.folder else {
            return Err(LoadFault::Failed);
        };
        let loaded = folder.load(alloc, slot)?;
        self.store_use.note_end(slot, loaded.len() as u64);
        Ok(loaded)
    }

    fn write(&mut self, slot: Slot, at: u64, prefix: &[u8], body: &[u8], back: &[u8]) -> bool {
        let Some(folder) = &mut self.folder else {
            return false;
        };
        let end = at
            .saturating_add(prefix.len() as u64)
            .saturating_add(body.len() as u64)
            .saturating_add(back.len() as u64);
        self.store_use.note_end(slot, end);
        folder.write(slot, at, prefix, body, back)
    }

    fn sync(&mut self, slot: Slot) -> bool {
        if !self.sync_trail() {
            return false;
        }
        let before = steady_time(self.rt);
        let Some(folder) = &mut self.folder else {
            return false;
        };
        let is_done = folder.sync(slot);
        self.store_use.note_sync(before, steady_time(self.rt));
        is_done
    }

    fn turn(&mut self, bytes: &[u8]) -> bool {
        let Some(folder) = &mut self.folder else {
            return false;
        };
        self.store_use.note_current(bytes);
        folder.turn(bytes)
    }
}

impl<R: Files + Alloc + Eprint + Clock> Streams<Global> for Served<'_, R> {
    ghost disk_acts = { λ old new act it. tt };

    fn wait(&mut self, how: Wait) -> bool {
        let Some(how) = self.settle_trail(how) else {
            return false;
        };
        match &mut self.sockets {
            Some(sockets) => sockets.wait(how),
            None => false,
        }
    }

    fn book(&mut self) -> Option<Book> {
        self.book.changed()
    }

    fn arrival(&mut self) -> Arrival {
        match &mut self.sockets {
            Some(sockets) => sockets.arrival(),
            None => Arrival::Nobody,
        }
    }

    fn admit(&mut self, place: usize, _conn: ConnId) {
        self.open = self.open.saturating_add(1);
        if let Some(sockets) = &mut self.sockets {
            sockets.admit(place);
        }
    }

    fn close(&mut self, place: usize, end: StreamEnd) {
        self.open = self.open.saturating_sub(1);
        if let Some(sockets) = &mut self.sockets {
            sockets.close(place);
        }
        self.note(end);
    }

    fn read(&mut self, place: usize, buf: &mut [u8]) -> Moved {
        match &mut self.sockets {
            Some(sockets) => sockets.read(place, buf),
            None => Moved::Failed,
        }
    }

    fn write(&mut self, place: usize, bytes: &[u8]) -> Moved {
        match &mut self.sockets {
            Some(sockets) => sockets.write(place, bytes),
            None => Moved::Failed,
        }
    }

    fn keep(&mut self, server: &Server) -> bool {
        if let Some(near) = &mut self.near {
            near.report(self.rt, self.open, server);
        }
        if let Some(metrics) = &mut self.metrics {
            metrics.keep(server, self.open, &self.store_use);
        }
        match &mut self.trail {
            Some(trail) => trail.keep(server.guard()),
            None => true,
        }
    }
}

impl<R: Files + Net + Alloc + Print + Eprint + Clock> Site<Global> for Served<'_, R> {
    fn begin(&mut self) -> bool {
        match self.listen() {
            Ok(()) => true,
            Err(why) => {
                self.unready = Some(why);
                false
            }
        }
    }
}
