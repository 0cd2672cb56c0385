//! The text of help.
use nfsd_options::Options;
use std::alloc::{AllocError, Global};
use std::test::Fail;
use who_book::Book;

/// The text for the user if the words are refused, or help is requested.
fn printed(alloc: Global, words: &[&str]) -> Result<String, AllocError> {
    match Options::read(alloc, words) {
        Ok(_) => Ok(String::new(alloc)),
        Err(error) => error.to_string(alloc),
    }
}

/// The text for `nfsd --help`.
fn help(alloc: Global) -> Result<String, AllocError> {
    printed(alloc, ["nfsd", "--help"].as_slice())
}

/// The part of a text between two other texts, if both are in it.
fn between<'a>(text: &'a str, prefix: &str, back: &str) -> Option<&'a str> {
    let (_, rest) = text.split_once(prefix)?;
    let (found, _) = rest.split_once(back)?;
    Some(found)
}

/// Texts of help: the files that are served, the address, the options with their ranges and defaults, and an example.
static TEXTS: [&str; 43] = [
    "NFS version 4.1",
    "access control lists",
    "127.0.0.1",
    "listening on 127.0.0.1:PORT",
    "Usage: nfsd [OPTIONS]",
    "--book <FILE>",
    "--bare ",
    "--port <N>",
    "from 1 to 65535 [default: 2049]",
    "--connections <N>",
    "from 0 to 4294967295 [default: 1; with --concurrent: 4294967295]",
    "--concurrent ",
    "--trail <FILE>",
    "before the replies go out; not with --bare",
    "-h, --help",
    "-V, --version",
    "in TOML with these seven keys, of which 'members' may be missing, and no others:",
    "in the groups whose array names it, at most 17, and in no others",
    "When the file of the book changes, it is loaded again",
    "standard error gets a line, and the previous book",
    "after two seconds without a change",
    "--stamped ",
    "--privileged-ports ",
    "Nobody overrides a list, not even root.",
    "setuid and setgid bits are kept and shown, and have no effect.",
    "nfsd --book names.toml --port 12049 --connections 2\n",
    "nfsd --concurrent --trail trail.txt\n",
    "--store <FOLDER>",
    "made if it is missing, before the replies go out; not with --bare",
    "operation is lost, whatever ends it.",
    "nfsd --concurrent --trail trail.txt --store tree\n",
    "--leases ",
    "--home <FOLDER>",
    "nfsd --home office\n",
    "--profile <NAME>",
    "files of up to 1 TiB, 1048576 objects and names of a directory, 256 connections.",
    "A store keeps its profile, and is refused with the other; not 'office' with --bare [default: standard]",
    "or 256 with '--profile office'",
    "nfsd --home office --profile office\n",
    "--listen <ADDRESS>",
    "--allow <NETWORK>",
    "--any-port ",
    "nfsd --home office --listen 192.0.2.7 --allow 192.0.2.0/24",
];

fn texts() -> &'static [&'static str] {
    &TEXTS
}

#[test]
fn help_has(rt: HostRuntime) -> Result<(), Fail> {
    let printed = help(rt.alloc())?;
    for text in texts() {
        assert!(rt; printed.contains(*text), "{text}");
    }
    Ok(())
}

/// The example of a book is a book.
#[test]
fn help_has_a_book(rt: HostRuntime) -> Result<(), Fail> {
    let printed = help(rt.alloc())?;
    let example = between(printed.as_str(), "no others:\n\n", "\n\nWithout a book").ok_or(
        "a book",
    )?;
    assert!(rt; Book::read(rt.alloc(), example).is_ok());
    Ok(())
}

static CONFLICT: &str = "\
error: the argument '--trail <FILE>' cannot be used with '--bare', whose trail goes to no file

Usage: nfsd [OPTIONS]

For more information, try '--help'.
";

/// A sample tree whose trail is to be kept is refused in `clap`'s form.
#[test]
fn conflict_is_reported(rt: HostRuntime) -> Result<(), Fail> {
    let text = printed(rt.alloc(), ["nfsd", "--bare", "--trail", "t"].as_slice())?;
    assert_eq!(rt; text.as_str(), CONFLICT);
    Ok(())
}

/// The same holds for a sample tree with a store.
#[test]
fn conflict_of_a_store_is_reported(rt: HostRuntime) -> Result<(), Fail> {
    let text = printed(rt.alloc(), ["nfsd", "--bare", "--store", "s"].as_slice())?;
    let wanted =
        "error: the argument '--store <FOLDER>' cannot be used with '--bare', whose tree is kept nowhere\n";
    assert!(rt; text.starts_with(wanted), "{text}");
    Ok(())
}

/// The same holds for moments of a trail without a file.
#[test]
fn missing_trail_is_reported(rt: HostRuntime) -> Result<(), Fail> {
    let text = printed(rt.alloc(), ["nfsd", "--stamped"].as_slice())?;
    let wanted =
        "error: the argument '--stamped' is for the lines of a file, and '--trail <FILE>' names none\n";
    assert!(rt; text.starts_with(wanted), "{text}");
    Ok(())
}
