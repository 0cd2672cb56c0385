//! The words of `nfstrail`.
use build_record::version;
use clap::{Arg, ArgAction, Command, Error, value_parser};
use std::alloc::{AllocError, Global};

/// The text of help.
const ABOUT: &str = "\
Prints the trail of a home, which 'nfsd --home FOLDER' keeps, for people: users by the names of the
book, objects by their paths in the store as it is now, rights by their names, and why. It writes
nothing, and takes no lock: the server may run.

With --follow it doesn't end there: it prints each further line that the server adds, until it is
stopped, or nobody reads its output. The store is read again for an object that isn't known yet.

A line that can't be read is printed as it is, after 'not understood: ', whatever is asked for; a
last line without its end after 'not ended: ', with --follow only if its file is put away.

    nfstrail office --user carol --since 2026-11-26";

/// The words of `nfstrail`, if they are valid.
#[derive(Clone, Copy)]
pub(crate) struct Options<'a> {
    /// The home.
    pub(crate) folder: &'a str,
    /// The name or the number of a user.
    pub(crate) user: Option<&'a str>,
    /// The path of an object.
    pub(crate) path: Option<&'a str>,
    /// A moment.
    pub(crate) since: Option<&'a str>,
    /// The name of an operation.
    pub(crate) op: Option<&'a str>,
    /// Whether lines are printed unchanged.
    pub(crate) raw: bool,
    /// Whether lines are printed that the server adds later.
    pub(crate) follow: bool,
}

const USER: &str = "Only lines of this user, by its name in the book or its number";

const PATH: &str =
    "Only lines of the object at this path in the store as it is now, and of those below it";

const SINCE: &str =
    "Only lines from this moment in UTC on, as 2026-11-26T20:28:01Z, or from this day on, as 2026-11-26";

const OP: &str = "Only lines of this operation, by its name, as WRITE";

const RAW: &str = "Prints the chosen lines as they stand in the file";

const FOLLOW: &str = "Prints each line that the server adds, too, until it is stopped";

fn command<'a>(alloc: Global) -> Result<Command<'a>, AllocError> {
    let command = Command::new(alloc, "nfstrail")
        .about(ABOUT)
        .version(version())
        .arg(folder(alloc))?
        .arg(valued(alloc, "user", "NAME|UID", USER))?
        .arg(valued(alloc, "path", "PATH", PATH))?
        .arg(valued(alloc, "since", "MOMENT", SINCE))?
        .arg(valued(alloc, "op", "NAME", OP))?
        .arg(flag(alloc, "raw", RAW))?
        .arg(flag(alloc, "follow", FOLLOW))?;
    Ok(command)
}

fn folder<'a>(alloc: Global) -> Arg<'a> {
    Arg::new(alloc, "FOLDER")
        .required(true)
        .action(ArgAction::Set)
        .help("The home")
}

/// An option without a value.
fn flag<'a>(alloc: Global, name: &'a str, help: &'a str) -> Arg<'a> {
    Arg::new(alloc, name)
        .long(name)
        .value_parser(value_parser!(bool))
        .action(ArgAction::SetTrue)
        .help(help)
}

/// An option with a value.
fn valued<'a>(alloc: Global, name: &'a str, value: &'a str, help: &'a str) -> Arg<'a> {
    Arg::new(alloc, name)
        .long(name)
        .value_name(value)
        .help(help)
}

impl<'a> Options<'a> {
    /// Reads the words, the first of which is the program's name. An error is `clap`'s own, with the text for the
    /// user.
    pub(crate) fn read(alloc: Global, words: &'a [String]) -> Result<Options<'a>, Error> {
        let matches = command(alloc)?.try_get_matches_from(words)?;
        Ok(Options {
            folder: matches.get_str("FOLDER").unwrap_or(""),
            user: matches.get_str("user"),
            path: matches.get_str("path"),
            since: matches.get_str("since"),
            op: matches.get_str("op"),
            raw: matches.get_flag("raw"),
            follow: matches.get_flag("follow"),
        })
    }
}
