//! The address of the server.
use clap::error::ErrorKind;
use nfsc_options::Options;
use std::alloc::{AllocError, Global};
use std::test::Fail;

/// The words of a call after these options.
fn words(alloc: Global, options: &str) -> Result<String, AllocError> {
    format!(in alloc; "nfsc --port 1 --uid 0 --gid 0{options} ls /")
}

static HOSTS: [(&str, &str); 7] = [
    ("", "127.0.0.1"),
    (" --host 127.0.0.1", "127.0.0.1"),
    (" --host 192.0.2.7", "192.0.2.7"),
    (" --host=::1", "::1"),
    (" --host 2001:DB8::0:7", "2001:db8::7"),
    (" --host ::ffff:192.0.2.7", "::ffff:192.0.2.7"),
    (" --book=--host", "127.0.0.1"),
];

fn hosts() -> &'static [(&'static str, &'static str)] {
    &HOSTS
}

#[test]
fn hosts_are_taken(rt: HostRuntime) -> Result<(), Fail> {
    let alloc = rt.alloc();
    for row in hosts() {
        let (given, want) = *row;
        let line = words(alloc, given)?;
        let words: Vec<&str> = line.split(' ').collect(alloc)?;
        let options = Options::read(alloc, words.as_slice())?;
        let shown = format!(in alloc; "{}", options.host)?;
        assert_eq!(rt; shown.as_str(), want);
    }
    Ok(())
}

static REFUSED: [(&str, ErrorKind); 7] = [
    (" --host", ErrorKind::InvalidValue),
    (" --host=", ErrorKind::ValueValidation),
    (" --host localhost", ErrorKind::ValueValidation),
    (" --host 127.0.0.1:2049", ErrorKind::ValueValidation),
    (" --host 127.1", ErrorKind::ValueValidation),
    (" --host [::1]", ErrorKind::ValueValidation),
    (" --host ::1 --host ::1", ErrorKind::ArgumentConflict),
];

fn refused() -> &'static [(&'static str, ErrorKind)] {
    &REFUSED
}

/// A word that isn't an address is refused. If no word follows, the command's own words do.
#[test]
fn hosts_are_refused(rt: HostRuntime) -> Result<(), Fail> {
    let alloc = rt.alloc();
    for row in refused() {
        let (given, want) = *row;
        let line = words(alloc, given)?;
        let mut printed: Vec<&str> = line.split(' ').collect(alloc)?;
        if want == ErrorKind::InvalidValue {
            printed.truncate(8);
        }
        let got = match Options::read(alloc, printed.as_slice()) {
            Ok(_) => None,
            Err(error) => Some(error.kind()),
        };
        assert!(rt; got == Some(want), "{given}");
    }
    Ok(())
}
