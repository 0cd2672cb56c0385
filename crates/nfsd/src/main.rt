//! `nfsd`: a file server over NFS version 4.1 (RFC 8881) that enforces access control lists exactly.
//!
//! `nfsd` listens on 127.0.0.1, or on the addresses of its options. It serves its connections one after the other, or
//! several at a time. With `--bare` it serves the sample tree to one connection, without sessions, from standard input
//! to standard output. The status is 0, or 1 after a fault, which is reported on standard error. It is 2 if the words
//! of the command line are refused; `clap`'s text is then on standard error.
#![tactic(auto)]

mod addresses;
mod book_file;
mod book_rule;
mod clock;
mod home;
mod listening;
mod metrics_file;
mod near_limits;
mod profile;
mod slips;
mod sockets;
mod store_use;
mod stored;
mod streams;
mod trail_file;
mod trail_sync;
mod words;

use anyhow::Result;
use book_file::BookFile;
use clap::Error;
use clap::error::ErrorKind;
use clock::SystemClock;
use home::{Home, Unmade};
use listening::{serve_stored, serve_unstored};
use nfs_hub::{Hub, HubFault, ServeEnd, serve};
use nfsd_options::Options;
use profile::NotOf;
use std::alloc::Global;
use std::fmt::{Display, Formatter};
use std::fs::{File, OpenOptions};
use std::hash::RandomState;
use std::net::SocketAddr;
use std::os::fd::AsRawFd;
use std::process::ExitCode;
use std::rt::Files;
use std::{env, fmt, io};
use store_words::Stop;
use trail_file::TrailFault;
use who_book::BookFault;

/// The most turns of a connection. Each turn reads some bytes of it.
const TURNS: u64 = 1_000_000;

/// The faults that keep `nfsd` from serving. Some of them keep a changed book from being loaded.
#[derive(Drop)]
enum Fault {
    /// The home had a book, and has none.
    Missing,
    /// The book's file can't be read, isn't a regular file, or isn't UTF-8.
    File,
    /// The note that the home has a book can't be written.
    Note(io::Error),
    /// The book has this fault.
    Book(BookFault),
    /// The book was written over one with `members`, and has none.
    Members,
    /// The hub can't be made. This is the number of its fault.
    Hub(u8),
    /// The folder of the home can't be made.
    Home(Unmade),
    /// The store can't be used.
    Store(Stop),
    /// The store is of another profile.
    Profile(NotOf),
    /// The trail can't be kept in its file.
    Trail(TrailFault),
    /// The server can't listen on this address.
    Address(SocketAddr, io::Error),
    /// The system provides no sockets.
    Sockets(io::Error),
    /// Waiting for connections failed.
    Waiting(Option<io::Error>),
    /// Standard output can't be written.
    Output(io::Error),
}

impl Display for Fault {
    fn fmt<W: fmt::Write>(&self, f: &mut Formatter<W>) -> fmt::Result {
        match self {
            Fault::Missing | Fault::File | Fault::Note(_) => f.write_str("file"),
            Fault::Book(fault) => write!(f, "book {}", *fault as u8),
            Fault::Members => write!(f, "book {}", BookFault::Shape as u8),
            Fault::Hub(number) => write!(f, "hub {number}"),
            Fault::Home(_) => f.write_str("store 2"),
            Fault::Store(stop) => write!(f, "store {}", stop.number()),
            Fault::Profile(_) => f.write_str("store 3"),
            Fault::Trail(_) => f.write_str("trail"),
            Fault::Address(..) | Fault::Sockets(_) | Fault::Waiting(_) => f.write_str("socket"),
            Fault::Output(error) => write!(f, "standard output: {error}"),
        }
    }
}

/// The allocation for the hub failed.
fn hub_fault() -> Fault {
    Fault::Hub(HubFault::Memory as u8)
}

/// Whether a connection ended after a whole record. If not, standard error gets a line about its end. A line that can't
/// be written is dropped.
fn ended<R: Eprint>(rt: &R, end: ServeEnd) -> bool {
    if end == ServeEnd::Ended {
        return true;
    }
    let _ = eprintln!(rt; "nfsd: end {}", end as u8);
    false
}

/// Serves one connection, from standard input to standard output.
fn serve_bare(rt: &HostRuntime, hub: &mut Hub) -> bool {
    let clock = SystemClock::new(rt);
    let end = serve(hub, &mut rt.reader(), &mut io::writer(rt), &clock, TURNS);
    ended(rt, end)
}

/// Serves the sample tree from standard input to standard output.
fn serve_sample(rt: &HostRuntime, alloc: Global, hasher: RandomState) -> Result<bool, Fault> {
    match Hub::bare(alloc, alloc, hasher) {
        Ok(mut hub) => Ok(serve_bare(rt, &mut hub)),
        Err(_) => Err(hub_fault()),
    }
}

/// Serves by the options. The value is whether each connection ended after a whole record. The outer result is an error
/// if the system provides no randomness.
fn serve_by<'r>(
    rt: &'r HostRuntime,
    alloc: Global,
    options: &'r Options<'r>,
    home: Option<&'r Home<'r>>,
) -> Result<Result<bool, Fault>> {
    let hasher = RandomState::new(rt)?;
    if options.bare {
        return Ok(serve_sample(rt, alloc, hasher));
    }
    let mut file = BookFile::new(rt, alloc, options.book, home);
    let book = match file.read() {
        Ok(book) => book,
        Err(fault) => return Ok(Err(fault)),
    };
    Ok(match options.store {
        Some(path) => serve_stored(rt, alloc, options, path, file, book, hasher),
        None => serve_unstored(rt, alloc, options, file, book, hasher),
    })
}

/// The status of the program after serving. A fault is reported on standard error.
fn status<R: Files + Alloc + Eprint>(
    rt: &R,
    alloc: Global,
    options: &Options<'_>,
    served: Result<bool, Fault>,
) -> ExitCode {
    match served {
        Ok(true) => ExitCode::SUCCESS,
        Ok(false) => ExitCode::FAILURE,
        Err(fault) => {
            words::report(rt, alloc, options, &fault);
            ExitCode::FAILURE
        }
    }
}

/// Serves by the options, which a home may have completed. The value is the status of the program.
fn run_options<'r>(
    rt: &'r HostRuntime,
    alloc: Global,
    options: &'r Options<'r>,
    home: Option<&'r Home<'r>>,
) -> Result<ExitCode> {
    let served = serve_by(rt, alloc, options, home)?;
    Ok(status(rt, alloc, options, served))
}

/// Prints `clap`'s text on standard error. A fault begins with the program's name, and help is printed as it is.
fn report_words<R: Eprint>(rt: &R, alloc: Global, error: &Error) -> Result<()> {
    let text = format!(in alloc; "{error}")?;
    match text.as_str().strip_prefix("error: ") {
        Some(fault) => eprint!(rt; "nfsd: {fault}")?,
        None => eprint!(rt; "{text}")?,
    }
    Ok(())
}

/// Prints the version on standard output. The value is the status of the program.
fn report_version<R: Print + Eprint>(rt: &R, version: &Error) -> ExitCode {
    match print!(rt; "{version}") {
        Ok(()) => ExitCode::SUCCESS,
        Err(error) => {
            let _ = eprintln!(rt; "nfsd: {}", Fault::Output(error));
            ExitCode::FAILURE
        }
    }
}

/// Serves by the words of the command line, or prints the version or help.
fn run_words(rt: &HostRuntime, alloc: Global, words: &[String]) -> Result<ExitCode> {
    match Options::read(alloc, words) {
        Ok(options) => match options.home {
            Some(folder) => {
                let home = Home::open(rt, alloc, folder)?;
                run_options(rt, alloc, &home.options(options), Some(&home))
            }
            None => run_options(rt, alloc, &options, None),
        },
        Err(error) if error.kind() == ErrorKind::DisplayVersion => Ok(report_version(rt, &error)),
        Err(error) => {
            let _ = report_words(rt, alloc, &error);
            Ok(ExitCode::from(2))
        }
    }
}

/// The file that drops each byte that is written to it.
const NOWHERE: &str = "/dev/null";

/// The descriptors of standard input, output and error are below this one.
const FIRST_DESCRIPTOR: i32 = 3;

/// Opens a file in place of standard input, output or error if one of them is closed. Otherwise the next file or socket
/// would take its descriptor, and would get the lines that are meant for it.
fn open_stand_in(rt: &HostRuntime) -> Option<File> {
    let file = OpenOptions::new().write(true).open(rt, NOWHERE).ok()?;
    if file.as_raw_fd() < FIRST_DESCRIPTOR {
        Some(file)
    } else {
        None
    }
}

/// Runs the program. The value is its status.
fn run(rt: &HostRuntime) -> Result<ExitCode> {
    let alloc = rt.alloc();
    let words: Vec<String> = env::args(rt)?.collect(alloc)?;
    run_words(rt, alloc, words.as_slice())
}

fn main(rt: HostRuntime) -> Result<ExitCode> {
    let _stand_ins = [open_stand_in(&rt), open_stand_in(&rt), open_stand_in(&rt)];
    match run(&rt) {
        Ok(status) => Ok(status),
        Err(error) => {
            let _ = eprintln!(rt; "nfsd: {error}");
            Ok(ExitCode::FAILURE)
        }
    }
}
