//! Lines for `nfslab`: lines that are accepted, with their file, and lines that are refused, with `clap`'s `ErrorKind`.
use clap::error::ErrorKind;
use nfsc_options::LabOptions;
use std::alloc::{AllocError, Global};
use std::test::Fail;

static TAKEN: [(&str, Option<&str>); 5] = [
    ("nfslab", None),
    ("nfslab --book names.toml", Some("names.toml")),
    ("nfslab --book=names.toml", Some("names.toml")),
    ("nfslab --book=", Some("")),
    ("nfslab --book=--book", Some("--book")),
];

static REFUSED: [(&str, ErrorKind); 7] = [
    ("nfslab --book", ErrorKind::InvalidValue),
    ("nfslab --book a --book b", ErrorKind::ArgumentConflict),
    ("nfslab --port 1", ErrorKind::UnknownArgument),
    ("nfslab -b names.toml", ErrorKind::UnknownArgument),
    ("nfslab script", ErrorKind::UnknownArgument),
    ("nfslab --help", ErrorKind::DisplayHelp),
    ("nfslab -h", ErrorKind::DisplayHelp),
];

fn taken() -> &'static [(&'static str, Option<&'static str>)] {
    &TAKEN
}

fn refused() -> &'static [(&'static str, ErrorKind)] {
    &REFUSED
}

/// Whether the words of a line, split at spaces, name this file.
fn reads(alloc: Global, line: &str, book: Option<&str>) -> Result<bool, AllocError> {
    let words: Vec<&str> = line.split(' ').collect(alloc)?;
    match LabOptions::read(alloc, words.as_slice()) {
        Ok(options) => Ok(options.book == book),
        Err(_) => Ok(false),
    }
}

/// The `ErrorKind`, if the words of a line, split at spaces, are refused.
fn refusal(alloc: Global, line: &str) -> Result<Option<ErrorKind>, AllocError> {
    let words: Vec<&str> = line.split(' ').collect(alloc)?;
    match LabOptions::read(alloc, words.as_slice()) {
        Ok(_) => Ok(None),
        Err(error) => Ok(Some(error.kind())),
    }
}

#[test]
fn lines_are_taken(rt: HostRuntime) -> Result<(), Fail> {
    for row in taken() {
        let (line, book) = *row;
        let printed = reads(rt.alloc(), line, book)?;
        assert!(rt; printed, "{line}");
    }
    Ok(())
}

#[test]
fn lines_are_refused(rt: HostRuntime) -> Result<(), Fail> {
    for row in refused() {
        let (line, want) = *row;
        let got = refusal(rt.alloc(), line)?;
        assert!(rt; got == Some(want), "{line}");
    }
    Ok(())
}
