//! Help: the commands, each with an example, and the words of access control lists (ACLs).
use crate::printable::Printable;
use crate::printing::Place;
use nfsc_options::COMMANDS;
use std::io;
use std::io::Write;

/// The commands of `nfsc` beside those of the client. The line of a command, and no other, begins
/// with four spaces.
const MORE_COMMANDS: &str = "\
Commands for files and lists in words:

    get P [FILE]           prints the bytes of a file, or writes them to FILE here    get /notes notes.txt
    send FILE P            makes the bytes of FILE, or of '-', those of a file        send notes.txt /notes
    getfacl P              prints the access control list in words, an entry a line   getfacl /notes
    setfacl P ENTRY..      sets the list                                              setfacl /notes A::OWNER@:RW
    addfacl P [N] ENTRY..  puts entries before entry N, or before the first           addfacl /notes D::1002:r
    delfacl P N..          takes out the entries of these numbers, from 1 on          delfacl /notes 1
    why USER RIGHTS P      says whether a user has rights, and what each entry does   why 1002 write /notes
    who RIGHTS P           prints the users of --book FILE that have these rights     who read,write /notes
    stat P                 prints what is known of an object, an attribute a line     stat /notes
    list P                 lists what is in a directory, with numbers and times       list /docs
    path N                 prints the paths of the object of this number              path 3
    chown OWNER P          sets the owner                                             chown 1002 /notes
    chgrp GROUP P          sets the owning group                                      chgrp 200 /notes
    touch [-t TIME] P      sets the times to the server's, or to TIME                 touch /notes
    readlink P             prints the text of a symbolic link                         readlink /latest
    cp OLD NEW             makes the bytes of OLD those of NEW                        cp /notes /docs/notes
";

/// The commands over an object and all below it, and over many lines. The line of a command, and no other, begins with
/// four spaces.
const DEEP_COMMANDS: &str = "\
Commands with a flag, over an object and all below it, which '--dry-run' only lists, and over many commands:

    list -R P                         lists all below a directory, each with its path   list -R /docs
    mkdir -p P                        makes a directory, and those missing above it     mkdir -p /docs/2026/may
    ln -s TEXT P                      makes a symbolic link with this text              ln -s notes /latest
    chmod -R [--dry-run] OCTAL P      sets the modes                                    chmod -R 0750 /docs
    setfacl -R [--dry-run] P ENTRY..  sets the lists                                    setfacl -R /docs A::OWNER@:RWX
    rm -R [--dry-run] P               removes them                                      rm -R --dry-run /docs
    batch                             runs the commands of standard input, a line each  batch

A list that its user can't read or change back is set by setfacl, addfacl and delfacl only with
'--force' after the command's name, also with '-R'. 'nfsc help lists' says what the words of an
entry are, and 'nfsc COMMAND --help' what a command wants.
";

/// The words of ACLs.
const LISTS: &str = "\
An entry is TYPE:FLAGS:PRINCIPAL:PERMISSIONS, as in A:fd:alice@lab.example:rxtncy.
The first entry that speaks of a right decides it.

TYPE          A allow    D deny    U audit    L alarm
PRINCIPAL     OWNER@, GROUP@, EVERYONE@, a name and the domain of the server's book, or a number;
              a group's with the flag g
FLAGS         f files inherit it            d directories inherit it       n only the next level inherits it
              i it is for inheriting alone  g the principal is a group     h it was inherited
              S watches what is granted     F watches what is refused
PERMISSIONS   r 001 read, or list           w 002 write, or make files     a 004 append, or make directories
              n 008 read named attributes   N 010 write them               x 020 execute, or look names up
              D 040 delete what is in it    t 080 read attributes          T 100 write attributes
              +200 write retention          +400 write retention hold      d 10000 delete it
              c 20000 read the list         C 40000 write the list         o 80000 write owner and group
              y 100000 synchronize
              R is rntcy, W is watTNcCy and on a directory D too, X is xtcy

In hexadecimal an entry is TYPE:FLAGS:MASK:PRINCIPAL, as in A:03:001200a9:alice@lab.example.
";

/// The permissions that `why` and `who` take.
const RIGHTS: &str = "
RIGHTS are names with commas between them, or letters of an entry as in 'nfsc help lists':

    read  write  append  list  search  execute  delete-child
    read-data  write-data  append-data  list-directory  add-file  add-subdirectory
    read-attributes  write-attributes  read-named-attrs  write-named-attrs
    read-acl  write-acl  write-owner  synchronize  write-retention  write-retention-hold

'delete' or 'remove' alone asks whether rm and mv may remove the name. Beside others 'delete' is the
permission of the object's own list.
";

/// The flag of the commands that set a list.
const FORCE: &str = "
With '--force' after the command's name a list is set even if you can't read it or change it back.
";

/// The times that `touch` takes.
const TIMES: &str = "
TIME is as 2026-12-01T12:00:00Z or 2026-12-01T13:30:00.5+01:30 (RFC 3339), or '@' and the seconds
since 1970, as @1796126400 or @-1.5. Both times are set, of the last access and of the last change
of the bytes. A server of the profile 'office' keeps them, and no other does. The server's time
needs write-attributes or write-data, and TIME needs write-attributes.
";

/// The note that help adds to a command's line.
fn note_on(name: &str) -> &'static str {
    match name {
        "why" | "who" => RIGHTS,
        "setfacl" | "addfacl" | "delfacl" => FORCE,
        "touch" => TIMES,
        _ => "",
    }
}

/// The line of a command's name in a table, if the table has the name.
fn line_in(table: &'static str, name: &str) -> Option<&'static str> {
    table
        .lines()
        .filter_map(|line| line.strip_prefix("    "))
        .find(|line| line.split(' ').next() == Some(name))
}

/// The words of a command of this table, its name first, as `get P [FILE]`.
fn usage_in(table: &'static str, name: &str) -> Option<&'static str> {
    let line = line_in(table, name)?;
    let (usage, _) = line.split_once("  ")?;
    Some(usage)
}

/// The words that the commands of a name need. They are those of the client's command, of one over
/// several of them, and of one over an object and all below it.
#[derive(Clone, Copy)]
pub(crate) struct Usages {
    pub(crate) plain: Option<&'static str>,
    pub(crate) more: Option<&'static str>,
    pub(crate) deep: Option<&'static str>,
}

impl Usages {
    pub(crate) fn of(name: &str) -> Self {
        Usages {
            plain: usage_in(COMMANDS, name),
            more: usage_in(MORE_COMMANDS, name),
            deep: usage_in(DEEP_COMMANDS, name),
        }
    }

    /// The words of the first of these commands. `None`: no command has this name.
    fn first(&self) -> Option<&'static str> {
        match self.plain {
            Some(usage) => Some(usage),
            None => self.more,
        }
    }

    /// Reports that the words of a batch line are no command, and which words a command of this
    /// name needs.
    pub(crate) fn report<R: Eprint>(&self, rt: &R, place: Place, name: &str) -> io::Result<()> {
        let name = Printable(name.as_bytes());
        match (self.first(), self.deep) {
            (Some(usage), Some(deep)) => {
                eprintln!(rt;
                    "nfsc: {place}the command '{name}' wants these words: {usage}, or {deep}"
                )
            }
            (Some(usage), None) | (None, Some(usage)) => {
                eprintln!(rt; "nfsc: {place}the command '{name}' wants these words: {usage}")
            }
            (None, None) => {
                eprintln!(rt; "nfsc: {place}there is no command '{name}'; 'nfsc help' lists them")
            }
        }
    }
}

/// Reports that a word of `touch` is no time, and which words are one.
pub(crate) fn report_time<R: Eprint>(rt: &R, place: Place, word: &str) -> io::Result<()> {
    let word = Printable(word.as_bytes());
    eprintln!(rt;
        "nfsc: {place}'{word}' is no time: TIME is as 2026-12-01T12:00:00Z (RFC 3339), \
         or '@' and the seconds since 1970, as @1796126400.5"
    )
}

/// A call for help.
#[derive(Clone, Copy)]
pub(crate) enum Help {
    /// `help`: the commands.
    Commands,
    /// `help lists`: the words of ACLs.
    Lists,
    /// `COMMAND --help` or `help COMMAND`: the lines of the commands of a name, and a note on them.
    Lines {
        first: &'static str,
        deep: Option<&'static str>,
        note: &'static str,
    },
}

/// The lines of the commands of a name.
fn lines_of(name: &str) -> Option<Help> {
    let deep = line_in(DEEP_COMMANDS, name);
    let first = match line_in(COMMANDS, name) {
        Some(line) => Some(line),
        None => line_in(MORE_COMMANDS, name),
    };
    let note = note_on(name);
    match first {
        Some(first) => Some(Help::Lines { first, deep, note }),
        None => deep.map(|first| Help::Lines {
            first,
            deep: None,
            note,
        }),
    }
}

impl Help {
    /// The help that words ask for, from the command's name on. `None`: they don't ask for help.
    pub(crate) fn read(words: &[&str]) -> Option<Self> {
        match words {
            ["help"] => Some(Help::Commands),
            ["help", "lists"] => Some(Help::Lists),
            ["help", name] | [name, "--help"] => lines_of(name),
            _ => None,
        }
    }

    /// The texts that are printed, in order.
    fn texts(self) -> [&'static str; 5] {
        match self {
            Help::Commands => [COMMANDS, "\n\n", MORE_COMMANDS, "\n", DEEP_COMMANDS],
            Help::Lists => [LISTS, "", "", "", ""],
            Help::Lines {
                first,
                deep: None,
                note,
            } => [first, "\n", note, "", ""],
            Help::Lines {
                first,
                deep: Some(deep),
                note,
            } => [first, "\n", deep, "\n", note],
        }
    }

    /// Prints the help, as the answer to a line of a batch.
    pub(crate) fn print<R: Print>(self, rt: &R) -> io::Result<()> {
        let mut out = io::writer(rt);
        for text in self.texts() {
            out.write_all(text.as_bytes())?;
        }
        Ok(())
    }

    /// Prints the help on standard error, where `clap` prints its own.
    pub(crate) fn report<R: Eprint>(self, rt: &R) -> io::Result<()> {
        for text in self.texts() {
            eprint!(rt; "{text}")?;
        }
        Ok(())
    }
}
