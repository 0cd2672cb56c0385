//! The second line of a fault: what it is about, what is wrong, and what would help.
use crate::Fault;
use crate::addresses::Addresses;
use book_words::explain;
use nfsd_options::Options;
use std::alloc::Global;
use std::fmt::Display;
use std::io::ErrorKind;
use std::net::SocketAddr;
use std::rt::Files;
use std::{fs, io};
use who_book::BookFault;

/// Reports why a regular file gives no text. It is read again to find the reason.
fn report_text<R: Files + Alloc + Eprint>(rt: &R, path: &str) -> io::Result<()> {
    match fs::read_to_string(rt, path) {
        Err(error) if error.kind() == ErrorKind::InvalidData => {
            eprintln!(rt; "{path}: it isn't UTF-8")
        }
        Err(error) => eprintln!(rt; "{path}: it can't be read: {error}"),
        Ok(_) => eprintln!(rt; "{path}: it can't be read, or isn't UTF-8"),
    }
}

/// Reports why a file gives no book.
fn report_file<R: Files + Alloc + Eprint>(rt: &R, path: &str) {
    let _ = match fs::metadata(rt, path) {
        Err(error) => eprintln!(rt; "{path}: {error}"),
        Ok(metadata) if !metadata.is_file() => eprintln!(rt; "{path}: it is no regular file"),
        Ok(_) => report_text(rt, path),
    };
}

/// Reports what is wrong with a book that has this fault.
fn report_book<R: Files + Alloc + Eprint>(rt: &R, alloc: Global, path: &str, fault: BookFault) {
    let Ok(text) = fs::read_to_string(rt, path) else {
        return;
    };
    if let Ok(why) = explain(alloc, text.as_str(), fault) {
        let _ = eprintln!(rt; "{path}: {why}");
    }
}

/// Reports why the file of a name gives no book, by the fault that was found.
pub(crate) fn report_no_book<R: Files + Alloc + Eprint>(
    rt: &R,
    alloc: Global,
    path: &str,
    fault: &Fault,
) {
    match fault {
        Fault::Missing => {
            let _ = eprintln!(rt;
                "{path}: it isn't there, and an earlier start had it; put it back, or remove had-book beside it to \
                 serve without a book"
            );
        }
        Fault::File => report_file(rt, path),
        Fault::Note(error) => {
            let _ = eprintln!(rt;
                "{path}: had-book can't be written beside it, and no book counts without that: {error}"
            );
        }
        Fault::Book(fault) => report_book(rt, alloc, path, *fault),
        Fault::Members => {
            let _ = eprintln!(rt;
                "{path}: members: the key is missing, which the book before has; members = {{}} says nobody"
            );
        }
        _ => {}
    }
}

/// Reports why the server can't listen on an address.
fn report_address<R: Eprint>(rt: &R, address: SocketAddr, error: &io::Error) {
    let _ = match error.kind() {
        ErrorKind::AddrInUse => eprintln!(rt; "{address}: in use"),
        ErrorKind::PermissionDenied => eprintln!(rt; "{address}: only root may listen there"),
        ErrorKind::AddrNotAvailable => {
            eprintln!(rt; "{address}: this machine has no such address")
        }
        _ => eprintln!(rt; "{address}: it can't be listened on: {error}"),
    };
}

/// Reports why no connection can be waited for.
fn report_wait<R: Eprint>(rt: &R, options: &Options<'_>, error: &Option<io::Error>) {
    let addresses = Addresses::of(options);
    let _ = match error {
        Some(error) => { eprintln!(rt; "{addresses}: no connection can be waited for: {error}") }
        None => eprintln!(rt; "{addresses}: no connection can be waited for"),
    };
}

/// Reports why the file or folder of an option can't be used. The reason follows its path.
fn report_path<R: Eprint, W: Display>(rt: &R, path: Option<&str>, why: &W) {
    if let Some(path) = path {
        let _ = eprintln!(rt; "{path}{why}");
    }
}

/// Reports a fault that keeps `nfsd` from serving, on standard error. The first line is for programs. The second one is
/// for people: it names the file or the address, and has the reason. A line that can't be written is dropped.
pub(crate) fn report<R: Files + Alloc + Eprint>(
    rt: &R,
    alloc: Global,
    options: &Options<'_>,
    fault: &Fault,
) {
    let _ = eprintln!(rt; "nfsd: {fault}");
    match fault {
        Fault::Missing | Fault::File | Fault::Note(_) | Fault::Book(_) | Fault::Members => {
            if let Some(path) = options.book {
                report_no_book(rt, alloc, path, fault);
            }
        }
        Fault::Hub(_) => {
            let _ = eprintln!(rt; "there is no memory to begin with");
        }
        Fault::Home(why) => report_path(rt, options.home, why),
        Fault::Store(stop) => report_path(rt, options.store, stop),
        Fault::Profile(why) => report_path(rt, options.store, why),
        Fault::Trail(why) => report_path(rt, options.trail, why),
        Fault::Address(address, error) => report_address(rt, *address, error),
        Fault::Sockets(error) => {
            let addresses = Addresses::of(options);
            let _ = eprintln!(rt; "{addresses}: it can't be listened on: {error}");
        }
        Fault::Waiting(error) => report_wait(rt, options, error),
        Fault::Output(_) => {}
    }
}
