//! The command line of `acl_lines`.
use clap::{Arg, ArgAction, Command, Error, value_parser};
use std::alloc::{AllocError, Global};

/// The help before the options.
const ABOUT: &str = "\
Answers questions on access control lists, one a line of standard input, with a line of standard output each:

    judge KIND OWNER GROUP UID GID,GID.. MASK LIST   granted, denied or missing, and the bits that an
                                                     ALLOW entry mentions first
    why KIND OWNER GROUP UID GID,GID.. MASK LIST     granted, denied N BIT or missing BIT
    mode KIND OWNER GROUP LIST                       the mode
    chmod KIND OCTAL LIST                            the list that a mode makes of a list
    inherit CHILDKIND LIST                           the list that a child inherits

A list is its entries with commas between them, or '-'. An entry is TYPE:FLAGS:MASK:WHO, as in
A:00:00000001:1001. KIND is d, f or l. For example:

    echo 'judge f 0 0 1001 100 1 D:00:00000001:1001,A:00:00000001:EVERYONE@' | acl_lines";

/// Whether access control entries (ACEs) are written in letters.
#[derive(Clone, Copy)]
pub(crate) struct Options {
    pub(crate) words: bool,
}

fn words<'a>(alloc: Global) -> Arg<'a> {
    Arg::new(alloc, "words")
        .long("words")
        .value_parser(value_parser!(bool))
        .action(ArgAction::SetTrue)
        .help(
            "Writes entries in the letters of nfs4_setfacl, as in A:fd:1001:rxtncy, and reads them in either form",
        )
}

fn command<'a>(alloc: Global) -> Result<Command<'a>, AllocError> {
    Command::new(alloc, "acl_lines")
        .about(ABOUT)
        .arg(words(alloc))
}

impl Options {
    /// Reads the words. The first is the program's name. An error is `clap`'s own, with the text for the user.
    pub(crate) fn read(alloc: Global, words: &[String]) -> Result<Options, Error> {
        let matches = command(alloc)?.try_get_matches_from(words)?;
        Ok(Options {
            words: matches.get_flag("words"),
        })
    }
}
