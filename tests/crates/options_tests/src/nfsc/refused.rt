//! Lines whose words are refused, with `clap`'s `ErrorKind`.
use clap::error::ErrorKind;
use nfsc_options::Options;
use std::alloc::{AllocError, Global};
use std::test::Fail;

/// The `ErrorKind`, if the words of a line, split at spaces, are refused.
fn refusal(alloc: Global, line: &str) -> Result<Option<ErrorKind>, AllocError> {
    let words: Vec<&str> = line.split(' ').collect(alloc)?;
    match Options::read(alloc, words.as_slice()) {
        Ok(_) => Ok(None),
        Err(error) => Ok(Some(error.kind())),
    }
}

static ROWS: [(&str, ErrorKind); 43] = [
    ("nfsc", ErrorKind::MissingRequiredArgument),
    ("nfsc ls /", ErrorKind::MissingRequiredArgument),
    (
        "nfsc --uid 0 --gid 0 ls /",
        ErrorKind::MissingRequiredArgument,
    ),
    (
        "nfsc --port 1 --gid 0 ls /",
        ErrorKind::MissingRequiredArgument,
    ),
    (
        "nfsc --port 1 --uid 0 ls /",
        ErrorKind::MissingRequiredArgument,
    ),
    (
        "nfsc --port 1 --uid 0 --gid 0",
        ErrorKind::MissingRequiredArgument,
    ),
    (
        "nfsc --port 1 --uid 0 --gid 0 --",
        ErrorKind::MissingRequiredArgument,
    ),
    (
        "nfsc ls / --port 1 --uid 0 --gid 0",
        ErrorKind::MissingRequiredArgument,
    ),
    (
        "nfsc --port 0 --uid 0 --gid 0 ls /",
        ErrorKind::ValueValidation,
    ),
    (
        "nfsc --port 65536 --uid 0 --gid 0 ls /",
        ErrorKind::ValueValidation,
    ),
    (
        "nfsc --port=-1 --uid 0 --gid 0 ls /",
        ErrorKind::ValueValidation,
    ),
    (
        "nfsc --port= --uid 0 --gid 0 ls /",
        ErrorKind::ValueValidation,
    ),
    (
        "nfsc --port nfs --uid 0 --gid 0 ls /",
        ErrorKind::ValueValidation,
    ),
    (
        "nfsc --port 1 --uid 4294967296 --gid 0 ls /",
        ErrorKind::ValueValidation,
    ),
    (
        "nfsc --port 1 --uid=-1 --gid 0 ls /",
        ErrorKind::ValueValidation,
    ),
    (
        "nfsc --port 1 --uid root --gid 0 ls /",
        ErrorKind::ValueValidation,
    ),
    (
        "nfsc --port 1 --uid 0 --gid 4294967296 ls /",
        ErrorKind::ValueValidation,
    ),
    (
        "nfsc --port 1 --uid 0 --gid=-1 ls /",
        ErrorKind::ValueValidation,
    ),
    (
        "nfsc --port 1 --uid 0 --gid wheel ls /",
        ErrorKind::ValueValidation,
    ),
    (
        "nfsc --port 1 --uid 0 --gid 0 --timeout 0 ls /",
        ErrorKind::ValueValidation,
    ),
    (
        "nfsc --port 1 --uid 0 --gid 0 --timeout 86401 ls /",
        ErrorKind::ValueValidation,
    ),
    (
        "nfsc --port 1 --uid 0 --gid 0 --timeout=-1 ls /",
        ErrorKind::ValueValidation,
    ),
    (
        "nfsc --port 1 --uid 0 --gid 0 --timeout= ls /",
        ErrorKind::ValueValidation,
    ),
    (
        "nfsc --port 1 --uid 0 --gid 0 --timeout 1.5 ls /",
        ErrorKind::ValueValidation,
    ),
    (
        "nfsc --port 1 --uid 0 --gid 0 --timeout",
        ErrorKind::InvalidValue,
    ),
    (
        "nfsc --timeout 1 --port 1 --uid 0 --gid 0 --timeout 1 ls /",
        ErrorKind::ArgumentConflict,
    ),
    (
        "nfsc --port 1 --as carol --book b ls /",
        ErrorKind::MissingRequiredArgument,
    ),
    (
        "nfsc --port 1 --uid 0 --gid 0 --groups",
        ErrorKind::InvalidValue,
    ),
    (
        "nfsc --port 1 --uid 0 --gid 0 --as",
        ErrorKind::InvalidValue,
    ),
    (
        "nfsc --port 1 --uid 0 --gid 0 --book",
        ErrorKind::InvalidValue,
    ),
    (
        "nfsc --groups 1 --port 1 --uid 0 --gid 0 --groups 2 ls /",
        ErrorKind::ArgumentConflict,
    ),
    (
        "nfsc --port 1 --uid 0 --gid 0 --user carol ls /",
        ErrorKind::UnknownArgument,
    ),
    (
        "nfsc --port 1 --uid 0 --gid 0 --group 5 ls /",
        ErrorKind::UnknownArgument,
    ),
    ("nfsc --port", ErrorKind::InvalidValue),
    ("nfsc --port 1 --uid", ErrorKind::InvalidValue),
    ("nfsc --port 1 --uid 0 --gid", ErrorKind::InvalidValue),
    (
        "nfsc --port 1 --port 1 --uid 0 --gid 0 ls /",
        ErrorKind::ArgumentConflict,
    ),
    (
        "nfsc --port 1 --uid 0 --uid 0 --gid 0 ls /",
        ErrorKind::ArgumentConflict,
    ),
    (
        "nfsc --hosts h --port 1 --uid 0 --gid 0 ls /",
        ErrorKind::UnknownArgument,
    ),
    ("nfsc -p 1 --uid 0 --gid 0 ls /", ErrorKind::UnknownArgument),
    ("nfsc --help", ErrorKind::DisplayHelp),
    ("nfsc -h", ErrorKind::DisplayHelp),
    ("nfsc --port 1 --help ls /", ErrorKind::DisplayHelp),
];

fn rows() -> &'static [(&'static str, ErrorKind)] {
    &ROWS
}

#[test]
fn lines_are_refused(rt: HostRuntime) -> Result<(), Fail> {
    for row in rows() {
        let (line, want) = *row;
        let got = refusal(rt.alloc(), line)?;
        assert!(rt; got == Some(want), "{line}");
    }
    Ok(())
}
