//! The profile.
use clap::error::ErrorKind;
use nfsd_options::{Options, Profile};
use std::alloc::{AllocError, Global};
use std::test::Fail;

/// The profile of a line's words, or the `ErrorKind` if they are refused.
fn profile(alloc: Global, line: &str) -> Result<Result<Profile, ErrorKind>, AllocError> {
    let words: Vec<&str> = line.split(' ').collect(alloc)?;
    match Options::read(alloc, words.as_slice()) {
        Ok(options) => Ok(Ok(options.profile)),
        Err(error) => Ok(Err(error.kind())),
    }
}

static TAKEN: [(&str, Profile); 10] = [
    ("nfsd", Profile::Standard),
    ("nfsd --home office", Profile::Standard),
    ("nfsd --bare", Profile::Standard),
    ("nfsd --profile standard", Profile::Standard),
    ("nfsd --bare --profile standard", Profile::Standard),
    ("nfsd --profile office", Profile::Office),
    ("nfsd --profile=office --connections 300", Profile::Office),
    ("nfsd --home h --profile office", Profile::Office),
    ("nfsd --profile office --store s --trail t", Profile::Office),
    ("nfsd --book=--profile", Profile::Standard),
];

fn taken() -> &'static [(&'static str, Profile)] {
    &TAKEN
}

#[test]
fn profiles_are_taken(rt: HostRuntime) -> Result<(), Fail> {
    for row in taken() {
        let (line, want) = *row;
        let got = profile(rt.alloc(), line)?;
        assert!(rt; got == Ok(want), "{line}");
    }
    Ok(())
}

static REFUSED: [(&str, ErrorKind); 14] = [
    ("nfsd --profile", ErrorKind::InvalidValue),
    ("nfsd --profile=", ErrorKind::ValueValidation),
    ("nfsd --profile Office", ErrorKind::ValueValidation),
    ("nfsd --profile offic", ErrorKind::ValueValidation),
    ("nfsd --profile offices", ErrorKind::ValueValidation),
    ("nfsd --profile 1", ErrorKind::ValueValidation),
    ("nfsd --bare --profile big", ErrorKind::ValueValidation),
    (
        "nfsd --profile office --profile office",
        ErrorKind::ArgumentConflict,
    ),
    (
        "nfsd --profile office --profile standard",
        ErrorKind::ArgumentConflict,
    ),
    ("nfsd --bare --profile office", ErrorKind::ArgumentConflict),
    (
        "nfsd --profile office --bare --stamped",
        ErrorKind::ArgumentConflict,
    ),
    (
        "nfsd --home h --bare --profile office",
        ErrorKind::ArgumentConflict,
    ),
    (
        "nfsd --profile office --stamped",
        ErrorKind::MissingRequiredArgument,
    ),
    ("nfsd --profile big --help", ErrorKind::DisplayHelp),
];

fn refused() -> &'static [(&'static str, ErrorKind)] {
    &REFUSED
}

#[test]
fn profiles_are_refused(rt: HostRuntime) -> Result<(), Fail> {
    for row in refused() {
        let (line, want) = *row;
        let got = profile(rt.alloc(), line)?;
        assert!(rt; got == Err(want), "{line}");
    }
    Ok(())
}

/// The text for the user if the words of a line are refused.
fn printed(alloc: Global, line: &str) -> Result<String, AllocError> {
    let words: Vec<&str> = line.split(' ').collect(alloc)?;
    match Options::read(alloc, words.as_slice()) {
        Ok(_) => Ok(String::new(alloc)),
        Err(error) => error.to_string(alloc),
    }
}

static SENTENCES: [(&str, &str); 2] = [
    (
        "nfsd --profile big",
        "error: invalid value 'big' for '--profile <NAME>': it is neither 'standard' nor 'office'\n",
    ),
    (
        "nfsd --bare --profile office",
        "error: the argument '--profile office' cannot be used with '--bare', whose sample tree has the limits of the \
         standard profile\n",
    ),
];

fn sentences() -> &'static [(&'static str, &'static str)] {
    &SENTENCES
}

#[test]
fn refusals_of_profiles_say_why(rt: HostRuntime) -> Result<(), Fail> {
    for row in sentences() {
        let (line, want) = *row;
        let got = printed(rt.alloc(), line)?;
        assert!(rt; got.starts_with(want), "{got}");
    }
    Ok(())
}
