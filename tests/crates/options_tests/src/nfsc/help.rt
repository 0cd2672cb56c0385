//! The texts of help.
use nfsc_options::{COMMANDS, LabOptions, Options};
use std::alloc::{AllocError, Global};
use std::test::Fail;

/// The text for `nfsc --help`.
fn help(alloc: Global) -> Result<String, AllocError> {
    let words = ["nfsc", "--help"];
    match Options::read(alloc, words.as_slice()) {
        Ok(_) => Ok(String::new(alloc)),
        Err(error) => error.to_string(alloc),
    }
}

/// The text for `nfslab --help`.
fn lab_help(alloc: Global) -> Result<String, AllocError> {
    let words = ["nfslab", "--help"];
    match LabOptions::read(alloc, words.as_slice()) {
        Ok(_) => Ok(String::new(alloc)),
        Err(error) => error.to_string(alloc),
    }
}

/// Texts of the help of `nfsc`: the command that is run, the address, the options with their ranges and their variables,
/// and an example.
static TEXTS: [&str; 22] = [
    "NFS version 4.1",
    "127.0.0.1",
    "Usage: nfsc [OPTIONS] --port <N> --uid <N> --gid <N> <COMMAND>...\n",
    "--port <N>",
    "from 1 to 65535",
    "--uid <N>",
    "--gid <N>",
    "from 0 to 4294967295",
    "--timeout <SECONDS>",
    "from 1 to 86400 seconds [default: 30]",
    "--groups <N,N>",
    "--as <NAME>",
    "--book <FILE>",
    "    nfsc --port 2049 --as carol --book book.toml ls /\n",
    "-h, --help",
    "    nfsc --port 2049 --uid 0 --gid 0 put /notes hi\n",
    "NFSC_PORT for --port",
    "NFSC_UID for --uid",
    "NFSC_GID for --gid",
    "NFSC_HOST for --host",
    "NFSC_BOOK for --book",
    "NFSC_AS for --as",
];

/// Texts of the help of `nfslab`: the script that is run, the form of a line, the option, and an example.
static LAB_TEXTS: [&str; 7] = [
    "NFS version 4.1",
    "standard input",
    "'as UID GID COMMAND ..'",
    "Usage: nfslab [OPTIONS]\n",
    "--book <FILE>",
    "-h, --help",
    "    as 1001 100 cat /notes\n",
];

fn texts() -> &'static [&'static str] {
    &TEXTS
}

fn lab_texts() -> &'static [&'static str] {
    &LAB_TEXTS
}

#[test]
fn help_has(rt: HostRuntime) -> Result<(), Fail> {
    let printed = help(rt.alloc())?;
    for text in texts() {
        assert!(rt; printed.contains(*text), "{text}");
    }
    assert!(rt; printed.contains(COMMANDS));
    Ok(())
}

#[test]
fn lab_help_has(rt: HostRuntime) -> Result<(), Fail> {
    let printed = lab_help(rt.alloc())?;
    for text in lab_texts() {
        assert!(rt; printed.contains(*text), "{text}");
    }
    assert!(rt; printed.contains(COMMANDS));
    Ok(())
}
