//! When the file of a home's trail is synced: in each turn whose entries are synced, before them, and else within a
//! second.
use std::fs::OpenFile;
use std::io;

/// The file of the trail as it is synced, and since when it has lines that aren't.
#[derive(Drop)]
pub(crate) struct Syncing<F> {
    /// `None`: the file isn't synced, since it isn't the trail of a home or isn't a regular file.
    file: Option<F>,
    /// The second of the monotonic clock in which the first line was appended that isn't synced.
    since: Option<u64>,
}

impl<F> Syncing<F> {
    /// A file of which all lines are synced.
    pub(crate) fn new(file: Option<F>) -> Self {
        Syncing { file, since: None }
    }

    /// Notes that a line is appended in a second.
    pub(crate) fn note(&mut self, second: u64) {
        if self.file.is_some() && self.since.is_none() {
            self.since = Some(second);
        }
    }

    /// Whether a line isn't synced.
    pub(crate) fn is_due(&self) -> bool {
        self.since.is_some()
    }

    /// Whether a line of an earlier second isn't synced.
    pub(crate) fn is_old(&self, second: u64) -> bool {
        match self.since {
            Some(since) => since != second,
            None => false,
        }
    }
}

impl<F: OpenFile> Syncing<F> {
    /// Syncs the lines that aren't synced. An error leaves them unsynced.
    pub(crate) fn sync(&mut self) -> io::Result<()> {
        if self.since.is_none() {
            return Ok(());
        }
        if let Some(file) = &self.file {
            file.sync_data()?;
        }
        self.since = None;
        Ok(())
    }
}
