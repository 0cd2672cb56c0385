//! The options of a command line of `nfsc`.
ghost use Rattle.std.specs.Prelude.{IfOk, map};
ghost use Rattle.nfsc_options.specs.Given.{AreTakenOr, OptionsOf};

use crate::command::command;
use crate::host::host_of;
use clap::Error;
use std::alloc::Global;
use std::convert::AsStr;
use std::net::IpAddr;

/// How many seconds an answer may take, if `--timeout` isn't given.
const TIMEOUT: u32 = 30;

/// The options of a command line of `nfsc`.
#[derive(Drop)]
pub struct Options<'a> {
    /// The port of the server, 1 to 65535.
    pub port: u16,
    /// The user's number.
    pub uid: u32,
    /// The group's number.
    pub gid: u32,
    /// How many seconds an answer may take, 1 to 86400.
    pub timeout: u32,
    /// The further groups of the user, as numbers with commas between them.
    pub groups: Option<&'a str>,
    /// The name of the user in a book.
    pub person: Option<&'a str>,
    /// The file of that book.
    pub book: Option<&'a str>,
    /// The address of the server; 127.0.0.1 if none is given.
    pub host: IpAddr,
    /// The words of the command, its name first.
    pub words: Vec<&'a str>,
}

impl<'a> Options<'a> {
    /// Reads the words of a command line. The first one is the program's name, as in `env::args`.
    /// Three things aren't tested: that the words after the options are a command, that the groups
    /// are numbers, and that the book has the user.
    ///
    /// An error is `clap`'s own: a fault in the words, a call for help, a text of `--host` that is no
    /// address, or an allocation that fails. Its `Display` is the text for the user.
    pub fn read<S: AsStr>(alloc: Global, words: &'a [S]) -> Result<Options<'a>, Error>
        ensures options_are { IfOk result (OptionsOf (map S.text words.entry.now)) }
        ensures refused { AreTakenOr (map S.text words.entry.now) result }
    {
        let matches = command(alloc)?.try_get_matches_from(words)?;
        let given = matches.get_str("host");
        let host = host_of(alloc, given)?;
        let words = matches.get_strs("command").unwrap().to_vec(alloc)?;
        Ok(Options {
            port: matches.get_one::<u16>("port").unwrap(),
            uid: matches.get_one::<u32>("uid").unwrap(),
            gid: matches.get_one::<u32>("gid").unwrap(),
            timeout: matches.get_one::<u32>("timeout").unwrap_or(TIMEOUT),
            groups: matches.get_str("groups"),
            person: matches.get_str("as"),
            book: matches.get_str("book"),
            host,
            words,
        })
    }
}
