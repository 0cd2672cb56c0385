//! The words of `nfstore`.
use build_record::version;
use clap::error::ErrorKind;
use clap::{Arg, ArgAction, Command, Error, value_parser};
use std::alloc::{AllocError, Global};

/// The text of help.
const ABOUT: &str = "\
Says what the store in a folder has, which 'nfsd --store FOLDER' keeps, and changes nothing; or,
with '--import', makes a new one, with '--close' writes a checkpoint, with '--check' reads it whole,
and with '--backup' makes a whole copy of it.

Without an option it says a name and a value on each line: the format, the machine and the profile,
the file that counts, its generation and frames, the records after its checkpoint and their entries,
the bytes that a crash tore, the counters, the next numbers of clients, sessions and opens, and how
many clients, sessions, opens, objects and names there are.

A store that a server has is refused, and a server is refused while this has it. '--backup' alone
takes no lock, and copies also what a server has and changes meanwhile. With '--check' and
'--backup' FOLDER may be a home, which 'nfsd --home FOLDER' keeps: a folder with a folder 'store'.";

/// A task for a store.
#[derive(Clone, Copy)]
pub(crate) enum Task<'a> {
    /// A summary of its content is printed.
    Summary,
    /// Its paths are listed.
    Tree,
    /// The entries of its log are listed.
    Calls,
    /// The tree is exported to this directory.
    Export(&'a str),
    /// A new store is made from this directory.
    Import(&'a str),
    /// A checkpoint is written, so that no entry is left after it.
    Close,
    /// It is read whole.
    Check,
    /// A whole copy of it, or of its home, is made as this directory.
    Backup(&'a str),
}

/// The words of `nfstore`, if they are valid.
#[derive(Clone, Copy)]
pub(crate) struct Options<'a> {
    /// The folder of the store.
    pub(crate) folder: &'a str,
    pub(crate) task: Task<'a>,
}

const TREE: &str =
    "Lists each path with its object's number, kind, mode, owner, group and size, and the path last";

const CALLS: &str =
    "Lists each entry of the log: when, who, and which operations, on paths as they were before it";

const CLOSE: &str =
    "Writes a checkpoint where entries stand after the last one, so that a program of another machine can go on";

const EXPORT: &str =
    "Writes the tree out to this directory, which is made: its objects below 'tree' there, and its lists to 'acl.txt'";

const IMPORT: &str =
    "Makes a new store of this directory: its files, directories and symbolic links, with the lists of their modes";

const CHECK: &str =
    "Reads the store whole, replays its entries, and says in a line that it is whole and what it has, or what is \
     damaged";

const BACKUP: &str =
    "Makes this directory, a whole copy of FOLDER as it is at a moment after this began, also while a server has it: a \
     server can be started over the copy";

fn command<'a>(alloc: Global) -> Result<Command<'a>, AllocError> {
    let command = Command::new(alloc, "nfstore")
        .about(ABOUT)
        .version(version())
        .arg(folder(alloc))?
        .arg(flag(alloc, "tree", TREE))?
        .arg(flag(alloc, "calls", CALLS))?
        .arg(directory(alloc, "export", EXPORT))?
        .arg(directory(alloc, "import", IMPORT))?
        .arg(flag(alloc, "close", CLOSE))?
        .arg(flag(alloc, "check", CHECK))?
        .arg(directory(alloc, "backup", BACKUP))?;
    Ok(command)
}

fn folder<'a>(alloc: Global) -> Arg<'a> {
    Arg::new(alloc, "FOLDER")
        .required(true)
        .action(ArgAction::Set)
        .help("The folder of the store; with '--check' and '--backup' it may be a home")
}

/// An option without a value.
fn flag<'a>(alloc: Global, name: &'a str, help: &'a str) -> Arg<'a> {
    Arg::new(alloc, name)
        .long(name)
        .value_parser(value_parser!(bool))
        .action(ArgAction::SetTrue)
        .help(help)
}

/// An option that names a directory of this system.
fn directory<'a>(alloc: Global, name: &'a str, help: &'a str) -> Arg<'a> {
    Arg::new(alloc, name)
        .long(name)
        .value_name("DIR")
        .help(help)
}

/// The one task among these, or the summary. `None`: there are several.
fn only<'a>(asked: &[Option<Task<'a>>]) -> Option<Task<'a>> {
    let mut only = None;
    for task in asked {
        if let Some(task) = task {
            if only.is_some() {
                return None;
            }
            only = Some(*task);
        }
    }
    Some(only.unwrap_or(Task::Summary))
}

/// A task that a flag requests.
fn by_flag<'a>(is_asked: bool, task: Task<'a>) -> Option<Task<'a>> {
    if is_asked { Some(task) } else { None }
}

impl<'a> Options<'a> {
    /// Reads the words, the first of which is the program's name. An error is `clap`'s own, with the text for the
    /// user.
    pub(crate) fn read(alloc: Global, words: &'a [String]) -> Result<Options<'a>, Error> {
        let matches = command(alloc)?.try_get_matches_from(words)?;
        let asked = [
            by_flag(matches.get_flag("tree"), Task::Tree),
            by_flag(matches.get_flag("calls"), Task::Calls),
            matches.get_str("export").map(Task::Export),
            matches.get_str("import").map(Task::Import),
            by_flag(matches.get_flag("close"), Task::Close),
            by_flag(matches.get_flag("check"), Task::Check),
            matches.get_str("backup").map(Task::Backup),
        ];
        match only(&asked) {
            Some(task) => Ok(Options {
                folder: matches.get_str("FOLDER").unwrap_or(""),
                task,
            }),
            None => {
                let text =
                    "of '--tree', '--calls', '--export <DIR>', '--import <DIR>', '--close', '--check' and \
                    '--backup <DIR>' only one is taken";
                Err(command(alloc)?.error(ErrorKind::ArgumentConflict, text)?)
            }
        }
    }
}
