//! The command of `nfslab`, with its help.
ghost use Rattle.std.specs.Prelude.{◌≡◌, IfOk, false};
ghost use Rattle.clap.specs.Words.{app_of, rule_of};
ghost use Rattle.nfsc_options.specs.Simple.{book_rule, nfslab};

use crate::commands::COMMANDS;
use clap::{Arg, Command};
use std::alloc::{AllocError, Global};

/// The script that is run, its server, and an example.
const ABOUT: &str = "\
Runs a script of commands on an NFS version 4.1 server in memory, and prints their answers and then the audit trail.

The script is read from standard input, a line a command: 'as UID GID COMMAND ..', with words split
at spaces. A line 'reload FILE' takes another book: 'ok', 'book N' where the file is no book, by the
number of its fault, or 'bad line' where it can't be read. Blank lines and lines that begin with '#'
are skipped. The files are an empty root at first, which belongs to whom the book says; the line's
number is the time in seconds. For example:

    # a file that only its owner reads
    as 0 0 put /notes hi
    as 1001 100 cat /notes
    as 0 0 getacl /notes
    reload book.toml";

/// The command of `nfslab`, as `clap` reads it.
pub(crate) fn lab_command<'a>(alloc: Global) -> Result<Command<'a>, AllocError>
    ensures { IfOk result (λ c. app_of c ≡ nfslab) }
{
    let command = Command::new(alloc, "nfslab")
        .about(ABOUT)
        .after_help(COMMANDS)
        .arg(book(alloc))?;
    Ok(command)
}

fn book<'a>(alloc: Global) -> Arg<'a>
    ensures { (rule_of result ≡ book_rule) × (result.global ≡ false) }
{
    Arg::new(alloc, "book").long("book").value_name("FILE").help(
        "The book of names, a file in TOML ('nfsd --help' tells of it)",
    )
}
