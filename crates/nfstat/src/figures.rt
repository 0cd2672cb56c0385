//! The figures of a text of metrics.
ghost use Rattle.std.specs.Prelude.{◌≡◌, IfOk};
ghost use Rattle.nfstat.specs.Figures.{Reads, ReadsLimits, ReadsStore, ReadsUsage, ReadsWork};
ghost use Rattle.server_metrics.specs.Reading.{ReadsSeconds};

use server_metrics::{Metric, Usage, micros_of, number_of};

/// The counts that have a limit.
#[derive(Clone, Copy)]
pub(crate) struct Limits {
    pub(crate) connections: Usage,
    pub(crate) clients: Usage,
    pub(crate) sessions: Usage,
    pub(crate) opens: Usage,
    pub(crate) objects: Usage,
    /// The bytes of all files.
    pub(crate) content: u64,
    /// The most bytes of all files, if there is a limit.
    pub(crate) capacity: Option<u64>,
}

/// The work since the server started.
#[derive(Clone, Copy)]
pub(crate) struct Work {
    pub(crate) acl_refusals: u64,
    pub(crate) read_bytes: u64,
    pub(crate) written_bytes: u64,
    pub(crate) syncs: u64,
    /// The microseconds of the slowest sync.
    pub(crate) slowest_sync: u64,
}

/// The start, the store and the book.
#[derive(Clone, Copy)]
pub(crate) struct Store {
    /// The seconds from 1970 to the start.
    pub(crate) start_time: u64,
    pub(crate) generation: u64,
    pub(crate) log_bytes: u64,
    /// The seconds since the last checkpoint.
    pub(crate) checkpoint_age: u64,
    /// 0 if the store isn't full.
    pub(crate) full: u64,
    pub(crate) book_epoch: u64,
}

/// The number of a metric. The error is the metric, if the text has no number of it.
fn number(text: &str, metric: Metric) -> Result<u64, Metric>
    ensures { IfOk result (λ n. Reads text.now metric n) }
{
    match number_of(text, metric) {
        Some(number) => Ok(number),
        None => Err(metric),
    }
}

/// The microseconds of a metric in seconds.
fn micros(text: &str, metric: Metric) -> Result<u64, Metric>
    ensures { IfOk result (λ n. ReadsSeconds text.now metric (Some n)) }
{
    match micros_of(text, metric) {
        Some(micros) => Ok(micros),
        None => Err(metric),
    }
}

/// How many there are of something, and the most that there may be.
fn usage(text: &str, used: Metric, limit: Metric) -> Result<Usage, Metric>
    ensures { IfOk result (λ u. ReadsUsage text.now used limit u) }
{
    let used = number(text, used)?;
    let limit = number(text, limit)?;
    Ok(Usage { used, limit })
}

impl Limits {
    /// Reads what is limited. The error is a metric that the text lacks.
    pub(crate) fn read(text: &str) -> Result<Limits, Metric>
        ensures { IfOk result (λ limits. ReadsLimits text.now limits) }
    {
        let connections = usage(text, Metric::Connections, Metric::ConnectionsLimit)?;
        let clients = usage(text, Metric::Clients, Metric::ClientsLimit)?;
        let sessions = usage(text, Metric::Sessions, Metric::SessionsLimit)?;
        let opens = usage(text, Metric::Opens, Metric::OpensLimit)?;
        let objects = usage(text, Metric::Objects, Metric::ObjectsLimit)?;
        let content = number(text, Metric::Content)?;
        let capacity = number_of(text, Metric::ContentLimit);
        Ok(Limits {
            connections,
            clients,
            sessions,
            opens,
            objects,
            content,
            capacity,
        })
    }
}

impl Work {
    /// Reads what was done. The error is a metric that the text lacks.
    pub(crate) fn read(text: &str) -> Result<Work, Metric>
        ensures { IfOk result (λ work. ReadsWork text.now work) }
    {
        let acl_refusals = number(text, Metric::AclRefusals)?;
        let read_bytes = number(text, Metric::ReadBytes)?;
        let written_bytes = number(text, Metric::WrittenBytes)?;
        let syncs = number(text, Metric::Syncs)?;
        let slowest_sync = micros(text, Metric::SlowestSync)?;
        Ok(Work {
            acl_refusals,
            read_bytes,
            written_bytes,
            syncs,
            slowest_sync,
        })
    }
}

impl Store {
    /// Reads the start, the store and the book. The error is a metric that the text lacks.
    pub(crate) fn read(text: &str) -> Result<Store, Metric>
        ensures { IfOk result (λ store. ReadsStore text.now store) }
    {
        let start_time = number(text, Metric::StartTime)?;
        let generation = number(text, Metric::Generation)?;
        let log_bytes = number(text, Metric::LogBytes)?;
        let checkpoint_age = number(text, Metric::CheckpointAge)?;
        let full = number(text, Metric::Full)?;
        let book_epoch = number(text, Metric::BookEpoch)?;
        Ok(Store {
            start_time,
            generation,
            log_bytes,
            checkpoint_age,
            full,
            book_epoch,
        })
    }
}

/// The figures of a text.
#[derive(Clone, Copy)]
pub(crate) struct Figures {
    pub(crate) limits: Limits,
    pub(crate) work: Work,
    pub(crate) store: Store,
}

impl Figures {
    /// Reads all figures. The error is a metric that the text lacks.
    pub(crate) fn read(text: &str) -> Result<Figures, Metric>
        ensures { IfOk result (λ f.
            ReadsLimits text.now f.limits × ReadsWork text.now f.work × ReadsStore text.now f.store) }
    {
        let limits = Limits::read(text)?;
        let work = Work::read(text)?;
        let store = Store::read(text)?;
        Ok(Figures {
            limits,
            work,
            store,
        })
    }
}
