//! The file of a home with the numbers of its server, for Prometheus.
use crate::clock::{second, steady_second};
use crate::store_use::StoreUse;
use build_record::version;
use compound_run::{CallCounts, Server};
use nfs_ops::OpKind;
use nfs_types::Status;
use server_metrics::{CallCount, Metrics, Usage, metrics_text};
use std::alloc::{AllocError, Global};
use std::fs::{OpenFile, OpenOptions};
use std::io::Write;
use std::os::unix::fs::{MetadataExt, OpenOptionsExt};
use std::rt::{Clock, Files};
use std::{fs, io, str};
use store_folder::{Bounded, file_limit};

/// The seconds after which the numbers are written anew.
const EVERY: u64 = 10;

/// The most objects whose bytes are summed for each text.
const FEW: usize = 65_536;

/// Everybody may read the numbers who may enter the home.
const METRICS_MODE: u32 = 0o644;

/// The numbers of operations are below this one, and those of statuses are in these two ranges.
const OPERATIONS: u32 = 64;

const LOW_STATUSES: u32 = 128;

const FIRST_HIGH_STATUS: u32 = 10_000;

const HIGH_STATUSES: u32 = 128;

/// The file `metrics.prom` of a home.
#[derive(Drop)]
pub(crate) struct MetricsFile<'a, R> {
    rt: &'a R,
    alloc: Global,
    path: String,
    /// The file that takes the place of the other one once it is written.
    fresh: String,
    /// The file of the store that each checkpoint replaces.
    current: String,
    /// The second of the day in which the server started.
    start_time: u64,
    /// The second of the monotonic clock in which the numbers were written last.
    written: Option<u64>,
    /// A connection was open when the server was looked at last.
    was_open: bool,
    /// The bytes of all files, when they were counted last.
    content: u64,
    /// The last attempt to write failed, and was reported.
    has_failed: bool,
}

/// Why the numbers aren't written.
enum Unwritten {
    Memory,
    System(io::Error),
}

impl From<AllocError> for Unwritten {
    fn from(_: AllocError) -> Self {
        Unwritten::Memory
    }
}

impl From<io::Error> for Unwritten {
    fn from(error: io::Error) -> Self {
        Unwritten::System(error)
    }
}

/// How many there are of something, and the most that there may be.
fn usage(used: usize, limit: usize) -> Usage {
    Usage {
        used: used as u64,
        limit: limit as u64,
    }
}

/// The bytes of all files.
fn content_bytes(server: &Server) -> u64 {
    let tree = server.tree();
    let (mut bytes, mut last) = (0u64, 0);
    for _object in 0..tree.object_count() {
        let Some(number) = tree.number_after(last) else {
            break;
        };
        if let Some(node) = tree.object(number) {
            bytes = bytes.saturating_add(node.size());
        }
        last = number;
    }
    bytes
}

/// Appends how often an operation was answered with a status, unless it never was.
fn push_answers<'a>(
    calls: &mut Vec<CallCount<'a>>,
    counts: &CallCounts,
    kind: OpKind,
    status: Status,
) -> Result<(), AllocError> {
    let count = counts.answers(kind, status);
    let Ok(operation) = str::from_utf8(kind.name()) else {
        return Ok(());
    };
    if count > 0 {
        calls.push(CallCount {
            operation,
            status: status.name(),
            count,
        })?;
    }
    Ok(())
}

/// Appends how often an operation was answered with each status.
fn push_operation<'a>(
    calls: &mut Vec<CallCount<'a>>,
    counts: &CallCounts,
    kind: OpKind,
) -> Result<(), AllocError> {
    for number in 0..LOW_STATUSES {
        if let Some(status) = Status::of_number(number) {
            push_answers(calls, counts, kind, status)?;
        }
    }
    for number in FIRST_HIGH_STATUS..FIRST_HIGH_STATUS + HIGH_STATUSES {
        if let Some(status) = Status::of_number(number) {
            push_answers(calls, counts, kind, status)?;
        }
    }
    Ok(())
}

/// How often each operation was answered with each status.
fn calls_of(alloc: Global, counts: &CallCounts) -> Result<Vec<CallCount<'static>>, AllocError> {
    let mut calls = Vec::new(alloc);
    for number in 0..OPERATIONS {
        if let Some(kind) = OpKind::of_number(number) {
            push_operation(&mut calls, counts, kind)?;
        }
    }
    Ok(calls)
}

/// How many operations access control lists refused: only they answer ACCESS.
fn refusals(counts: &CallCounts) -> u64 {
    let mut refusals = 0u64;
    for number in 0..OPERATIONS {
        if let Some(kind) = OpKind::of_number(number) {
            refusals = refusals.saturating_add(counts.answers(kind, Status::Access));
        }
    }
    refusals
}

impl<'a, R: Files + Alloc + Clock> MetricsFile<'a, R> {
    /// The file of a home. Nothing is written yet.
    pub(crate) fn new(rt: &'a R, alloc: Global, home: &str) -> Result<Self, AllocError> {
        Ok(MetricsFile {
            rt,
            alloc,
            path: format!(in alloc; "{home}/metrics.prom")?,
            fresh: format!(in alloc; "{home}/metrics.prom.new")?,
            current: format!(in alloc; "{home}/store/CURRENT")?,
            start_time: u64::try_from(second(rt)).unwrap_or(0),
            written: None,
            was_open: false,
            content: 0,
            has_failed: false,
        })
    }

    /// Whether the numbers weren't written for 10 seconds.
    fn is_old(&self) -> bool {
        match self.written {
            Some(written) => steady_second(self.rt).saturating_sub(written) >= EVERY,
            None => true,
        }
    }

    /// Whether the last connection was closed since the server was looked at last.
    fn is_left(&self, open: usize) -> bool {
        self.was_open && open == 0
    }

    /// Counts the bytes of all files. Of many objects that takes long, so it is done only each 10 seconds.
    fn count_content(&mut self, server: &Server) {
        if self.is_old() || server.tree().object_count() <= FEW {
            self.content = content_bytes(server);
        }
    }

    /// The seconds since CURRENT was replaced, which each checkpoint does.
    fn checkpoint_age(&self) -> u64 {
        match fs::metadata(self.rt, self.current.as_str()) {
            Ok(answer) => {
                u64::try_from(second(self.rt).saturating_sub(answer.mtime())).unwrap_or(0)
            }
            Err(_) => 0,
        }
    }

    /// The text of the numbers.
    fn text(&self, server: &Server, open: usize, store: &StoreUse) -> Result<Vec<u8>, AllocError> {
        let (tree, limits) = (server.tree(), server.tree().limits());
        let (clients, sessions) = server.clients().counts();
        let counts = server.call_counts();
        let calls = calls_of(self.alloc, counts)?;
        let metrics = Metrics {
            version: version(),
            start_time: self.start_time,
            connections: usage(open, limits.connections()),
            clients: usage(clients, limits.clients()),
            sessions: usage(sessions, limits.sessions()),
            opens: usage(server.opens().len(), limits.opens()),
            objects: usage(tree.object_count(), limits.objects()),
            content: self.content,
            capacity: None,
            calls: calls.as_slice(),
            acl_refusals: refusals(counts),
            read_bytes: counts.read_bytes(),
            written_bytes: counts.written_bytes(),
            syncs: store.syncs,
            slowest_sync: store.slowest_sync,
            generation: store.generation,
            log_bytes: store.log_bytes(),
            checkpoint_age: self.checkpoint_age(),
            is_full: false,
            book_epoch: server.epoch(),
        };
        metrics_text(self.alloc, &metrics)
    }

    /// Writes a text into the fresh file, which then takes the place of the other one.
    fn put(&self, text: &[u8]) -> io::Result<()> {
        let mut how = OpenOptions::new();
        how.write(true).create(true).truncate(true);
        how.mode(METRICS_MODE);
        let file = how.open(self.rt, self.fresh.as_str())?;
        let mut file = Bounded::new(file, file_limit(self.rt));
        file.write_all(text)?;
        file.flush()?;
        fs::rename(self.rt, self.fresh.as_str(), self.path.as_str())
    }

    /// Writes the numbers of a server.
    fn write(&self, server: &Server, open: usize, store: &StoreUse) -> Result<(), Unwritten> {
        let text = self.text(server, open, store)?;
        self.put(&text)?;
        Ok(())
    }
}

impl<R: Files + Alloc + Clock + Eprint> MetricsFile<'_, R> {
    /// Reports once why the numbers can't be written, until they can be written again.
    fn note_end(&mut self, end: Result<(), Unwritten>) {
        let error = match end {
            Ok(()) => {
                self.has_failed = false;
                return;
            }
            Err(Unwritten::Memory) => return,
            Err(Unwritten::System(error)) => error,
        };
        if !self.has_failed {
            let rt = self.rt;
            let _ = eprintln!(rt; "nfsd: {}: it can't be written: {error}", self.path);
        }
        self.has_failed = true;
    }

    /// Writes the numbers of a server if that is due, given how many connections are open. Serving goes on where they
    /// can't be written.
    pub(crate) fn keep(&mut self, server: &Server, open: usize, store: &StoreUse) {
        if self.is_old() || self.is_left(open) {
            self.count_content(server);
            self.written = Some(steady_second(self.rt));
            let end = self.write(server, open, store);
            self.note_end(end);
        }
        self.was_open = open > 0;
    }
}
