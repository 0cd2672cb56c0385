//! Lines whose words are refused, with `clap`'s `ErrorKind`.
use clap::error::ErrorKind;
use nfsd_options::Options;
use std::alloc::{AllocError, Global};
use std::test::Fail;

/// The `ErrorKind`, if the words of a line, split at spaces, are refused.
fn refusal(alloc: Global, line: &str) -> Result<Option<ErrorKind>, AllocError> {
    let words: Vec<&str> = line.split(' ').collect(alloc)?;
    match Options::read(alloc, words.as_slice()) {
        Ok(_) => Ok(None),
        Err(error) => Ok(Some(error.kind())),
    }
}

static ROWS: [(&str, ErrorKind); 61] = [
    ("nfsd --port 0", ErrorKind::ValueValidation),
    ("nfsd --port 65536", ErrorKind::ValueValidation),
    ("nfsd --port=-1", ErrorKind::ValueValidation),
    ("nfsd --port=", ErrorKind::ValueValidation),
    ("nfsd --port nfs", ErrorKind::ValueValidation),
    ("nfsd --port 0x801", ErrorKind::ValueValidation),
    ("nfsd --connections 4294967296", ErrorKind::ValueValidation),
    ("nfsd --connections=-1", ErrorKind::ValueValidation),
    (
        "nfsd --connections 18446744073709551616",
        ErrorKind::ValueValidation,
    ),
    ("nfsd --connections all", ErrorKind::ValueValidation),
    ("nfsd --book", ErrorKind::InvalidValue),
    ("nfsd --port", ErrorKind::InvalidValue),
    ("nfsd --connections", ErrorKind::InvalidValue),
    ("nfsd --bare=true", ErrorKind::TooManyValues),
    ("nfsd --bare --bare", ErrorKind::ArgumentConflict),
    ("nfsd --book a --book b", ErrorKind::ArgumentConflict),
    ("nfsd --port 1 --port 1", ErrorKind::ArgumentConflict),
    (
        "nfsd --connections 1 --connections 1",
        ErrorKind::ArgumentConflict,
    ),
    ("nfsd --ports 1", ErrorKind::UnknownArgument),
    ("nfsd -p 1", ErrorKind::UnknownArgument),
    ("nfsd names.toml", ErrorKind::UnknownArgument),
    ("nfsd -- --bare", ErrorKind::UnknownArgument),
    ("nfsd --trail", ErrorKind::InvalidValue),
    ("nfsd --trail a --trail b", ErrorKind::ArgumentConflict),
    (
        "nfsd --concurrent --concurrent",
        ErrorKind::ArgumentConflict,
    ),
    ("nfsd --concurrent=true", ErrorKind::TooManyValues),
    ("nfsd --bare --trail t", ErrorKind::ArgumentConflict),
    (
        "nfsd --trail t --port 3 --bare",
        ErrorKind::ArgumentConflict,
    ),
    ("nfsd --bare --trail t --port 0", ErrorKind::ValueValidation),
    ("nfsd --bare --trail t --help", ErrorKind::DisplayHelp),
    ("nfsd --stamped", ErrorKind::MissingRequiredArgument),
    ("nfsd --stamped --bare", ErrorKind::MissingRequiredArgument),
    (
        "nfsd --stamped --bare --trail t",
        ErrorKind::ArgumentConflict,
    ),
    (
        "nfsd --privileged-ports --bare",
        ErrorKind::ArgumentConflict,
    ),
    (
        "nfsd --bare --stamped --privileged-ports",
        ErrorKind::ArgumentConflict,
    ),
    (
        "nfsd --stamped --stamped --trail t",
        ErrorKind::ArgumentConflict,
    ),
    ("nfsd --privileged-ports=true", ErrorKind::TooManyValues),
    ("nfsd --stamped --port 0", ErrorKind::ValueValidation),
    ("nfsd --store", ErrorKind::InvalidValue),
    ("nfsd --store a --store b", ErrorKind::ArgumentConflict),
    ("nfsd --book=", ErrorKind::InvalidValue),
    ("nfsd --trail=", ErrorKind::InvalidValue),
    ("nfsd --store=", ErrorKind::InvalidValue),
    ("nfsd --home=", ErrorKind::InvalidValue),
    ("nfsd --home= --bare", ErrorKind::InvalidValue),
    ("nfsd --home h --bare", ErrorKind::ArgumentConflict),
    ("nfsd --home h --store s", ErrorKind::ArgumentConflict),
    ("nfsd --home h --trail t", ErrorKind::ArgumentConflict),
    ("nfsd --home h --leases", ErrorKind::ArgumentConflict),
    ("nfsd --home h --concurrent", ErrorKind::ArgumentConflict),
    ("nfsd --home h --book b", ErrorKind::ArgumentConflict),
    ("nfsd --stamped --home h", ErrorKind::ArgumentConflict),
    ("nfsd --store s --bare", ErrorKind::ArgumentConflict),
    (
        "nfsd --bare --stamped --store s",
        ErrorKind::ArgumentConflict,
    ),
    ("nfsd --help", ErrorKind::DisplayHelp),
    ("nfsd -h", ErrorKind::DisplayHelp),
    ("nfsd --version", ErrorKind::DisplayVersion),
    ("nfsd -V", ErrorKind::DisplayVersion),
    (
        "nfsd --home h --trail t --version",
        ErrorKind::DisplayVersion,
    ),
    ("nfsd --version --no-option", ErrorKind::DisplayVersion),
    ("nfsd --no-option --version", ErrorKind::UnknownArgument),
];

fn rows() -> &'static [(&'static str, ErrorKind)] {
    &ROWS
}

#[test]
fn lines_are_refused(rt: HostRuntime) -> Result<(), Fail> {
    for row in rows() {
        let (line, want) = *row;
        let got = refusal(rt.alloc(), line)?;
        assert!(rt; got == Some(want), "{line}");
    }
    Ok(())
}
