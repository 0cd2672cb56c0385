//! Lines that are accepted, with the options of their words.
use nfsc_options::Options;
use std::alloc::{AllocError, Global};
use std::test::Fail;

/// A line, and its port, its user, its group and the words of its command, split at spaces.
type Row = (&'static str, u16, u32, u32, &'static str);

static ROWS: [Row; 15] = [
    (
        "nfsc --port 2049 --uid 0 --gid 0 put /notes hi",
        2049,
        0,
        0,
        "put /notes hi",
    ),
    (
        "nfsc --port 2049 --uid 1001 --gid 100 ls /",
        2049,
        1001,
        100,
        "ls /",
    ),
    (
        "nfsc --gid 100 --uid 1001 --port 2049 ls /",
        2049,
        1001,
        100,
        "ls /",
    ),
    (
        "nfsc --port=1 --uid=0 --gid=4294967295 cat /f",
        1,
        0,
        4294967295,
        "cat /f",
    ),
    (
        "nfsc --port 65535 --uid 4294967295 --gid 0 rm /f",
        65535,
        4294967295,
        0,
        "rm /f",
    ),
    (
        "nfsc --port +80 --uid 007 --gid=-0 rm /f",
        80,
        7,
        0,
        "rm /f",
    ),
    ("nfsc --port 1 --uid 0 --gid 0 ls", 1, 0, 0, "ls"),
    (
        "nfsc --port 1 --uid 0 --gid 0 no such command",
        1,
        0,
        0,
        "no such command",
    ),
    (
        "nfsc --port 1 --uid 0 --gid 0 put /f -x",
        1,
        0,
        0,
        "put /f -x",
    ),
    (
        "nfsc --port 1 --uid 0 --gid 0 put /f --port 2",
        1,
        0,
        0,
        "put /f --port 2",
    ),
    (
        "nfsc --port 1 --uid 0 --gid 0 put /f --help",
        1,
        0,
        0,
        "put /f --help",
    ),
    (
        "nfsc --port 1 --uid 0 --gid 0 put /f --",
        1,
        0,
        0,
        "put /f --",
    ),
    ("nfsc --port 1 --uid 0 --gid 0 -- ls /", 1, 0, 0, "ls /"),
    ("nfsc --port 1 --uid 0 --gid 0 -- --help", 1, 0, 0, "--help"),
    ("nfsc --port 1 --uid 0 --gid 0 put /f ", 1, 0, 0, "put /f "),
];

/// Lines, and how many seconds an answer may take.
static TIMES: [(&str, u32); 7] = [
    ("nfsc --port 1 --uid 0 --gid 0 ls /", 30),
    ("nfsc --port 1 --uid 0 --gid 0 --timeout 1 ls /", 1),
    ("nfsc --timeout=86400 --port 1 --uid 0 --gid 0 ls /", 86400),
    ("nfsc --port 1 --timeout 007 --uid 0 --gid 0 ls /", 7),
    ("nfsc --port 1 --uid 5 --gid 6 --timeout +31 ls /", 31),
    ("nfsc --port 1 --uid 0 --gid 0 ls --timeout 5", 30),
    ("nfsc --port 1 --uid 0 --gid 0 -- --timeout 5", 30),
];

/// A line, and the texts of its groups, its name and its book.
type Texts = (
    &'static str,
    Option<&'static str>,
    Option<&'static str>,
    Option<&'static str>,
);

static TEXTS: [Texts; 7] = [
    ("nfsc --port 1 --uid 0 --gid 0 ls /", None, None, None),
    (
        "nfsc --port 1 --uid 0 --gid 0 --groups 5,6 ls /",
        Some("5,6"),
        None,
        None,
    ),
    (
        "nfsc --groups= --port 1 --uid 0 --gid 0 ls /",
        Some(""),
        None,
        None,
    ),
    (
        "nfsc --port 1 --uid 0 --gid 0 --groups all ls /",
        Some("all"),
        None,
        None,
    ),
    (
        "nfsc --port 1 --uid 0 --gid 0 --as carol --book b.toml ls /",
        None,
        Some("carol"),
        Some("b.toml"),
    ),
    (
        "nfsc --book=b --as=c --port 1 --uid 0 --gid 0 --groups=d ls /",
        Some("d"),
        Some("c"),
        Some("b"),
    ),
    (
        "nfsc --port 1 --uid 0 --gid 0 put /f --as c --book b --groups d",
        None,
        None,
        None,
    ),
];

fn rows() -> &'static [Row] {
    &ROWS
}

/// Whether the words of a line, split at spaces, have these options.
fn reads(alloc: Global, row: &Row) -> Result<bool, AllocError> {
    let (line, port, uid, gid, command) = *row;
    let words: Vec<&str> = line.split(' ').collect(alloc)?;
    match Options::read(alloc, words.as_slice()) {
        Ok(options) => Ok(
            options.port == port
                && options.uid == uid
                && options.gid == gid
                && options.words.iter().copied().eq(command.split(' ')),
        ),
        Err(_) => Ok(false),
    }
}

#[test]
fn lines_are_taken(rt: HostRuntime) -> Result<(), Fail> {
    for row in rows() {
        let printed = reads(rt.alloc(), row)?;
        assert!(rt; printed, "{}", row.0);
    }
    Ok(())
}

fn times() -> &'static [(&'static str, u32)] {
    &TIMES
}

/// Whether the words of a line, split at spaces, give an answer this time.
fn gives(alloc: Global, line: &str, seconds: u32) -> Result<bool, AllocError> {
    let words: Vec<&str> = line.split(' ').collect(alloc)?;
    match Options::read(alloc, words.as_slice()) {
        Ok(options) => Ok(options.timeout == seconds),
        Err(_) => Ok(false),
    }
}

#[test]
fn lines_give_an_answer_its_time(rt: HostRuntime) -> Result<(), Fail> {
    for row in times() {
        let (line, seconds) = *row;
        let given = gives(rt.alloc(), line, seconds)?;
        assert!(rt; given, "{line}");
    }
    Ok(())
}

fn texts() -> &'static [Texts] {
    &TEXTS
}

/// Whether the words of a line, split at spaces, have these texts.
fn names(alloc: Global, row: &Texts) -> Result<bool, AllocError> {
    let (line, groups, person, book) = *row;
    let words: Vec<&str> = line.split(' ').collect(alloc)?;
    match Options::read(alloc, words.as_slice()) {
        Ok(options) => {
            Ok(options.groups == groups && options.person == person && options.book == book)
        }
        Err(_) => Ok(false),
    }
}

#[test]
fn lines_have_these_texts(rt: HostRuntime) -> Result<(), Fail> {
    for row in texts() {
        let printed = names(rt.alloc(), row)?;
        assert!(rt; printed, "{}", row.0);
    }
    Ok(())
}
