//! The addresses to listen on, and the networks that are allowed.
use clap::error::ErrorKind;
use nfsd_options::Options;
use std::alloc::{AllocError, Global};
use std::test::Fail;

/// The addresses and the networks of a line's words, each after a space, and `any` if any port will do.
fn printed(alloc: Global, line: &str) -> Result<String, AllocError> {
    let words: Vec<&str> = line.split(' ').collect(alloc)?;
    let mut text = String::new(alloc);
    match Options::read(alloc, words.as_slice()) {
        Ok(options) => {
            for address in &options.listen {
                text.push_str(format!(in alloc; " {address}")?.as_str())?;
            }
            for network in &options.allow {
                text.push_str(format!(in alloc; " {network}")?.as_str())?;
            }
            if options.any_port {
                text.push_str(" any")?;
            }
        }
        Err(error) => text.push_str(error.to_string(alloc)?.as_str())?,
    }
    Ok(text)
}

/// The `ErrorKind`, if the words of a line are refused.
fn refusal(alloc: Global, line: &str) -> Result<Option<ErrorKind>, AllocError> {
    let words: Vec<&str> = line.split(' ').collect(alloc)?;
    match Options::read(alloc, words.as_slice()) {
        Ok(_) => Ok(None),
        Err(error) => Ok(Some(error.kind())),
    }
}

static TAKEN: [(&str, &str); 12] = [
    ("nfsd", ""),
    ("nfsd --listen 127.0.0.2", " 127.0.0.2"),
    ("nfsd --listen ::1 --listen 127.0.0.1", " ::1 127.0.0.1"),
    ("nfsd --listen=::ffff:127.0.0.1", " ::ffff:127.0.0.1"),
    (
        "nfsd --listen 192.0.2.7 --allow 192.0.2.0/24",
        " 192.0.2.7 192.0.2.0/24",
    ),
    (
        "nfsd --allow 2001:db8::/32 --listen :: --allow 192.0.2.9",
        " :: 2001:db8::/32 192.0.2.9/32",
    ),
    (
        "nfsd --listen 0.0.0.0 --allow 0.0.0.0/0 --any-port",
        " 0.0.0.0 0.0.0.0/0 any",
    ),
    ("nfsd --allow 192.0.2.0/24", " 192.0.2.0/24"),
    (
        "nfsd --home h --listen 192.0.2.7 --allow 192.0.2.0/24 --any-port",
        " 192.0.2.7 192.0.2.0/24 any",
    ),
    ("nfsd --any-port", " any"),
    (
        "nfsd --listen 192.0.2.7 --allow ::1 --privileged-ports",
        " 192.0.2.7 ::1/128",
    ),
    ("nfsd --book=--listen", ""),
];

fn taken() -> &'static [(&'static str, &'static str)] {
    &TAKEN
}

#[test]
fn addresses_and_networks_are_taken(rt: HostRuntime) -> Result<(), Fail> {
    for row in taken() {
        let (line, want) = *row;
        let got = printed(rt.alloc(), line)?;
        assert_eq!(rt; got.as_str(), want);
    }
    Ok(())
}

static REFUSED: [(&str, ErrorKind); 22] = [
    ("nfsd --listen", ErrorKind::InvalidValue),
    ("nfsd --allow", ErrorKind::InvalidValue),
    ("nfsd --listen=", ErrorKind::ValueValidation),
    ("nfsd --allow=", ErrorKind::ValueValidation),
    ("nfsd --listen localhost", ErrorKind::ValueValidation),
    ("nfsd --listen 127.0.0.1:2049", ErrorKind::ValueValidation),
    ("nfsd --listen 127.0.0.1/8", ErrorKind::ValueValidation),
    (
        "nfsd --listen 127.0.0.1 --listen 127.1",
        ErrorKind::ValueValidation,
    ),
    ("nfsd --allow 192.0.2.1/24", ErrorKind::ValueValidation),
    ("nfsd --allow 192.0.2.0/33", ErrorKind::ValueValidation),
    (
        "nfsd --allow 192.0.2.0/24 --allow office",
        ErrorKind::ValueValidation,
    ),
    ("nfsd --bare --allow office", ErrorKind::ValueValidation),
    ("nfsd --any-port=true", ErrorKind::TooManyValues),
    (
        "nfsd --listen 192.0.2.7",
        ErrorKind::MissingRequiredArgument,
    ),
    (
        "nfsd --listen ::1 --listen ::",
        ErrorKind::MissingRequiredArgument,
    ),
    (
        "nfsd --listen 192.0.2.7 --any-port",
        ErrorKind::MissingRequiredArgument,
    ),
    (
        "nfsd --home h --listen 0.0.0.0",
        ErrorKind::MissingRequiredArgument,
    ),
    (
        "nfsd --bare --listen 127.0.0.1",
        ErrorKind::ArgumentConflict,
    ),
    (
        "nfsd --bare --allow 192.0.2.0/24",
        ErrorKind::ArgumentConflict,
    ),
    ("nfsd --any-port --bare", ErrorKind::ArgumentConflict),
    (
        "nfsd --any-port --privileged-ports",
        ErrorKind::ArgumentConflict,
    ),
    ("nfsd --listen :: --help", ErrorKind::DisplayHelp),
];

fn refused() -> &'static [(&'static str, ErrorKind)] {
    &REFUSED
}

#[test]
fn lines_of_listening_are_refused(rt: HostRuntime) -> Result<(), Fail> {
    for row in refused() {
        let (line, want) = *row;
        let got = refusal(rt.alloc(), line)?;
        assert!(rt; got == Some(want), "{line}");
    }
    Ok(())
}

/// A line of `addresses` addresses and `networks` networks.
fn line_of(alloc: Global, addresses: u32, networks: u32) -> Result<String, AllocError> {
    let mut line = String::from_str(alloc, "nfsd")?;
    for _address in 0..addresses {
        line.push_str(" --listen ::1")?;
    }
    for _network in 0..networks {
        line.push_str(" --allow ::/0")?;
    }
    Ok(line)
}

/// At most 8 addresses and 64 networks are accepted.
#[test]
fn there_are_most_of_both(rt: HostRuntime) -> Result<(), Fail> {
    let alloc = rt.alloc();
    let many = Some(ErrorKind::TooManyValues);
    let whole = line_of(alloc, 8, 64)?;
    let addresses = line_of(alloc, 9, 0)?;
    let networks = line_of(alloc, 1, 65)?;
    assert!(rt; refusal(alloc, whole.as_str())? == None);
    assert!(rt; refusal(alloc, addresses.as_str())? == many);
    assert!(rt; refusal(alloc, networks.as_str())? == many);
    Ok(())
}

static SENTENCES: [(&str, &str); 4] = [
    (
        "nfsd --allow 192.0.2.7/24",
        "error: invalid value '192.0.2.7/24' for '--allow <NETWORK>': its address has bits after its prefix\n",
    ),
    (
        "nfsd --listen localhost",
        "error: invalid value 'localhost' for '--listen <ADDRESS>': invalid IP address syntax\n",
    ),
    (
        "nfsd --listen 192.0.2.7",
        "error: the argument '--listen <ADDRESS>' names an address that other machines reach, and '--allow <NETWORK>' \
         names nobody who may connect to it\n",
    ),
    (
        "nfsd --bare --listen ::1",
        "error: the arguments '--listen <ADDRESS>', '--allow <NETWORK>' and '--any-port' cannot be used with '--bare', \
         which listens on no port\n",
    ),
];

fn sentences() -> &'static [(&'static str, &'static str)] {
    &SENTENCES
}

#[test]
fn refusals_say_why(rt: HostRuntime) -> Result<(), Fail> {
    for row in sentences() {
        let (line, want) = *row;
        let got = printed(rt.alloc(), line)?;
        assert!(rt; got.starts_with(want), "{got}");
    }
    Ok(())
}
