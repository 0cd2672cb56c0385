//! Lines that are accepted, with the options of their words.
use nfsd_options::{Options, Profile};
use std::alloc::{AllocError, Global};
use std::test::Fail;

/// A line, and the file, the flag, the port and the connections of its words.
type Row = (&'static str, Option<&'static str>, bool, u16, u32);

static ROWS: [Row; 16] = [
    ("nfsd", None, false, 2049, 1),
    ("nfsd --bare", None, true, 2049, 1),
    ("nfsd --book names.toml", Some("names.toml"), false, 2049, 1),
    ("nfsd --book=names.toml", Some("names.toml"), false, 2049, 1),
    ("nfsd --book a=b", Some("a=b"), false, 2049, 1),
    ("nfsd --book=--bare", Some("--bare"), false, 2049, 1),
    ("nfsd --port 1", None, false, 1, 1),
    ("nfsd --port=65535", None, false, 65535, 1),
    ("nfsd --port +80", None, false, 80, 1),
    ("nfsd --port 00080", None, false, 80, 1),
    ("nfsd --connections 0", None, false, 2049, 0),
    ("nfsd --connections=-0", None, false, 2049, 0),
    (
        "nfsd --connections 4294967295",
        None,
        false,
        2049,
        4294967295,
    ),
    (
        "nfsd --bare --book f --port 3 --connections 4",
        Some("f"),
        true,
        3,
        4,
    ),
    (
        "nfsd --connections 4 --port 3 --book f --bare",
        Some("f"),
        true,
        3,
        4,
    ),
    (
        "nfsd --book names.toml --port 12049 --connections 2",
        Some("names.toml"),
        false,
        12049,
        2,
    ),
];

fn rows() -> &'static [Row] {
    &ROWS
}

/// Whether the words of a line, split at spaces, have these options.
fn reads(alloc: Global, line: &str, want: &Options) -> Result<bool, AllocError> {
    let words: Vec<&str> = line.split(' ').collect(alloc)?;
    match Options::read(alloc, words.as_slice()) {
        Ok(options) => Ok(options == *want),
        Err(_) => Ok(false),
    }
}

#[test]
fn lines_are_taken(rt: HostRuntime) -> Result<(), Fail> {
    for row in rows() {
        let (line, book, bare, port, connections) = *row;
        let want = Options {
            book,
            bare,
            port,
            connections,
            concurrent: false,
            trail: None,
            stamped: false,
            privileged_ports: false,
            store: None,
            leases: false,
            home: None,
            profile: Profile::Standard,
            listen: Vec::new(rt.alloc()),
            allow: Vec::new(rt.alloc()),
            any_port: false,
        };
        let printed = reads(rt.alloc(), line, &want)?;
        assert!(rt; printed, "{line}");
    }
    Ok(())
}

/// A line of the later options, and the flag of the sample tree, the number of connections, whether several are served
/// at the same time, and the trail's file of its words.
type LaterRow = (&'static str, bool, u32, bool, Option<&'static str>);

static LATER_ROWS: [LaterRow; 8] = [
    ("nfsd --concurrent", false, 4294967295, true, None),
    ("nfsd --concurrent --connections 3", false, 3, true, None),
    ("nfsd --connections 0 --concurrent", false, 0, true, None),
    ("nfsd --bare --concurrent", true, 4294967295, true, None),
    ("nfsd --trail trail.txt", false, 1, false, Some("trail.txt")),
    ("nfsd --trail=--bare", false, 1, false, Some("--bare")),
    ("nfsd --trail t --connections 7", false, 7, false, Some("t")),
    (
        "nfsd --concurrent --trail trail.txt",
        false,
        4294967295,
        true,
        Some("trail.txt"),
    ),
];

fn later_rows() -> &'static [LaterRow] {
    &LATER_ROWS
}

#[test]
fn lines_of_later_options_are_taken(rt: HostRuntime) -> Result<(), Fail> {
    for row in later_rows() {
        let (line, bare, connections, concurrent, trail) = *row;
        let want = Options {
            book: None,
            bare,
            port: 2049,
            connections,
            concurrent,
            trail,
            stamped: false,
            privileged_ports: false,
            store: None,
            leases: false,
            home: None,
            profile: Profile::Standard,
            listen: Vec::new(rt.alloc()),
            allow: Vec::new(rt.alloc()),
            any_port: false,
        };
        let printed = reads(rt.alloc(), line, &want)?;
        assert!(rt; printed, "{line}");
    }
    Ok(())
}

/// A line, and whether its lines have moments, and whether connections are served only from ports below 1024.
type FlagRow = (&'static str, bool, bool);

static FLAG_ROWS: [FlagRow; 6] = [
    ("nfsd --trail t --stamped", true, false),
    ("nfsd --stamped --trail=t", true, false),
    ("nfsd --privileged-ports", false, true),
    ("nfsd --trail t --privileged-ports", false, true),
    (
        "nfsd --stamped --trail t --concurrent --privileged-ports",
        true,
        true,
    ),
    ("nfsd --book=--stamped", false, false),
];

fn flag_rows() -> &'static [FlagRow] {
    &FLAG_ROWS
}

/// The two flags of the words of a line, if they are accepted.
fn flags(alloc: Global, line: &str) -> Result<Option<(bool, bool)>, AllocError> {
    let words: Vec<&str> = line.split(' ').collect(alloc)?;
    match Options::read(alloc, words.as_slice()) {
        Ok(options) => Ok(Some((options.stamped, options.privileged_ports))),
        Err(_) => Ok(None),
    }
}

#[test]
fn flags_are_taken(rt: HostRuntime) -> Result<(), Fail> {
    for row in flag_rows() {
        let (line, stamped, privileged_ports) = *row;
        let got = flags(rt.alloc(), line)?;
        assert!(rt; got == Some((stamped, privileged_ports)), "{line}");
    }
    Ok(())
}

/// A line, and the store's folder and the trail's file of its words.
type StoreRow = (&'static str, Option<&'static str>, Option<&'static str>);

static STORE_ROWS: [StoreRow; 4] = [
    ("nfsd --store tree", Some("tree"), None),
    ("nfsd --store=--bare", Some("--bare"), None),
    ("nfsd --trail t --store s --stamped", Some("s"), Some("t")),
    ("nfsd --trail=--store", None, Some("--store")),
];

fn store_rows() -> &'static [StoreRow] {
    &STORE_ROWS
}

/// Whether the words of a line, split at spaces, name this folder and this file.
fn names(
    alloc: Global,
    line: &str,
    store: Option<&str>,
    trail: Option<&str>,
) -> Result<bool, AllocError> {
    let words: Vec<&str> = line.split(' ').collect(alloc)?;
    match Options::read(alloc, words.as_slice()) {
        Ok(options) => Ok(options.store == store && options.trail == trail),
        Err(_) => Ok(false),
    }
}

#[test]
fn stores_are_taken(rt: HostRuntime) -> Result<(), Fail> {
    for row in store_rows() {
        let (line, store, trail) = *row;
        let printed = names(rt.alloc(), line, store, trail)?;
        assert!(rt; printed, "{line}");
    }
    Ok(())
}

/// If there is no word at all, not even a name, the defaults apply.
#[test]
fn no_word_is_needed(rt: HostRuntime) {
    let words: [&str; 0] = [];
    let printed = Options::read(rt.alloc(), words.as_slice()).is_ok_and(|options| {
        options.book.is_none()
            && !options.bare
            && options.port == 2049
            && options.connections == 1
            && !options.concurrent
            && options.trail.is_none()
            && options.store.is_none()
    });
    assert!(rt; printed);
}

/// A line, and whether silent clients expire by its words, the folder of all, and how many connections are served.
type HomeRow = (&'static str, bool, Option<&'static str>, u32);

static HOMES: [HomeRow; 5] = [
    ("nfsd --leases", true, None, 1),
    ("nfsd --leases --concurrent", true, None, 4_294_967_295),
    ("nfsd --home office", false, Some("office"), 4_294_967_295),
    (
        "nfsd --home office --connections 3",
        false,
        Some("office"),
        3,
    ),
    (
        "nfsd --port 2050 --home h --privileged-ports",
        false,
        Some("h"),
        4_294_967_295,
    ),
];

fn home_rows() -> &'static [HomeRow] {
    &HOMES
}

fn home_of(alloc: Global, line: &str) -> Result<Option<(bool, bool, u32)>, AllocError> {
    let words: Vec<&str> = line.split_whitespace().collect(alloc)?;
    match Options::read(alloc, words.as_slice()) {
        Ok(options) => Ok(Some((options.leases, options.home.is_some(), options.connections))),
        Err(_) => Ok(None),
    }
}

#[test]
fn homes_are_taken(rt: HostRuntime) -> Result<(), Fail> {
    for row in home_rows() {
        let (line, leases, home, connections) = *row;
        let got = home_of(rt.alloc(), line)?;
        assert!(rt;
            got == Some((leases, home.is_some(), connections)),
            "{line}"
        );
    }
    Ok(())
}
