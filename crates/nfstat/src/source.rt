//! The file `metrics.prom` of a home.
use server_metrics::Metric;
use std::alloc::{AllocError, Global};
use std::fmt::{Display, Formatter};
use std::fs::{File, Metadata};
use std::io::{ErrorKind, Read};
use std::rt::{Clock, Files};
use std::time::SystemTime;
use std::{fmt, fs, io};

/// More bytes than a text of metrics has.
const MOST: u64 = 16_777_216;

/// Why there are no figures.
#[derive(Drop)]
pub(crate) enum Fault {
    /// There is no such file.
    Missing,
    /// A call of the system failed.
    System(io::Error),
    /// It is no regular file, for example a pipe: reading it might never end.
    Irregular,
    /// It isn't UTF-8.
    NotText,
    /// Its last line has no newline.
    Cut,
    /// It has no number of a metric.
    Lacks(Metric),
    /// An allocation failed.
    Memory,
}

impl From<AllocError> for Fault {
    fn from(_: AllocError) -> Self {
        Fault::Memory
    }
}

impl From<io::Error> for Fault {
    fn from(error: io::Error) -> Self {
        match error.kind() {
            ErrorKind::NotFound => Fault::Missing,
            ErrorKind::InvalidData => Fault::NotText,
            ErrorKind::OutOfMemory => Fault::Memory,
            _ => Fault::System(error),
        }
    }
}

/// Each is a sentence about the file.
impl Display for Fault {
    fn fmt<W: fmt::Write>(&self, f: &mut Formatter<W>) -> fmt::Result {
        match self {
            Fault::Missing => f.write_str(
                "there is no such file; only a server with --home writes it",
            ),
            Fault::System(error) if error.kind() == ErrorKind::PermissionDenied => {
                write!(f, "{error}; the user of the server may read it")
            }
            Fault::System(error) => write!(f, "{error}"),
            Fault::Irregular => f.write_str(
                "it is no regular file; a server writes one in its place",
            ),
            Fault::NotText => f.write_str(
                "it is no text of metrics; a server writes one in its place",
            ),
            Fault::Cut => f.write_str(
                "its last line has no end; a server writes a whole one in its place",
            ),
            Fault::Lacks(metric) => {
                let name = metric.name();
                write!(f, "it has no number of {name}")
            }
            Fault::Memory => f.write_str("there is no memory for it"),
        }
    }
}

/// A text of metrics, and how old it is.
#[derive(Drop)]
pub(crate) struct Source {
    pub(crate) text: String,
    /// The seconds since it was written. `None`: a clock isn't known.
    pub(crate) age: Option<u64>,
}

/// The seconds since a file was written.
fn age_of<R: Clock>(rt: &R, metadata: &Metadata) -> Option<u64> {
    let written = metadata.modified().ok()?;
    let now = SystemTime::now(rt).ok()?;
    match now.duration_since(written) {
        Ok(age) => Some(age.as_secs()),
        Err(_) => Some(0),
    }
}

impl Source {
    /// Reads the file.
    pub(crate) fn read<R: Files<File = File> + Clock>(
        rt: &R,
        alloc: Global,
        path: &str,
    ) -> Result<Source, Fault> {
        if !fs::metadata(rt, path)?.is_file() {
            return Err(Fault::Irregular);
        }
        let file = File::open(rt, path)?;
        let age = age_of(rt, &file.metadata()?);
        let text = io::read_to_string(alloc, file.take(MOST))?;
        if text.as_str().ends_with('\n') {
            Ok(Source { text, age })
        } else {
            Err(Fault::Cut)
        }
    }
}
