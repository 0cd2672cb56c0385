//! The words of `nfstat`.
use build_record::version;
use clap::{Arg, ArgAction, Command, Error, value_parser};
use std::alloc::{AllocError, Global};

/// The text of help.
const ABOUT: &str = "\
Prints what the server of a home is doing, for people: what is used of each limit, calls by
operation and status, what was read, written and synced, the log and the checkpoint.

The numbers are those of HOME/metrics.prom, a file for Prometheus. This program only reads that file:
it asks the server nothing. Only a server with --home writes the file. Numbers that are older
than a minute are printed too, with a word on standard error and status 1: the server may have
stopped.

    nfstat office --watch";

const WATCH: &str = "Prints the numbers again each 10 seconds, until it is stopped";

/// The words of `nfstat`, if they are valid.
#[derive(Clone, Copy)]
pub(crate) struct Options<'a> {
    /// The home.
    pub(crate) folder: &'a str,
    /// Whether the numbers are printed again and again.
    pub(crate) watch: bool,
}

fn folder<'a>(alloc: Global) -> Arg<'a> {
    Arg::new(alloc, "HOME")
        .required(true)
        .action(ArgAction::Set)
        .help("The home")
}

/// An option without a value.
fn flag<'a>(alloc: Global, name: &'a str, help: &'a str) -> Arg<'a> {
    Arg::new(alloc, name)
        .long(name)
        .value_parser(value_parser!(bool))
        .action(ArgAction::SetTrue)
        .help(help)
}

fn command<'a>(alloc: Global) -> Result<Command<'a>, AllocError> {
    let command = Command::new(alloc, "nfstat")
        .about(ABOUT)
        .version(version())
        .arg(folder(alloc))?
        .arg(flag(alloc, "watch", WATCH))?;
    Ok(command)
}

impl<'a> Options<'a> {
    /// Reads the words, the first of which is the program's name. An error is `clap`'s own, with the text for the
    /// user.
    pub(crate) fn read(alloc: Global, words: &'a [String]) -> Result<Options<'a>, Error> {
        let matches = command(alloc)?.try_get_matches_from(words)?;
        Ok(Options {
            folder: matches.get_str("HOME").unwrap_or(""),
            watch: matches.get_flag("watch"),
        })
    }
}
