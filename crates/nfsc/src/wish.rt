//! The command that the words of a call request.
use crate::deep::{Deep, Manner};
use crate::facl::Change;
use crate::times::time_in;
use nfs_client::Command;
use nfs_types::SentTime;

/// The command that the words of a call request: one as the client has it, or one for people over
/// several of them.
#[derive(Drop)]
pub(crate) enum Wish<'a> {
    Plain(Command<'a>),
    /// `get P [FILE]`: the bytes of a file, to standard output or to a file of this system.
    Get {
        path: &'a [u8],
        file: Option<&'a str>,
    },
    /// `send FILE P`: the bytes of a file of this system, or of standard input for `-`.
    Send {
        file: &'a str,
        path: &'a [u8],
    },
    /// `getfacl P`: the access control list (ACL) in words.
    GetFacl(&'a [u8]),
    /// `setfacl P ENTRY..`, `addfacl P [N] ENTRY..`, `delfacl P N..`: changes the ACL; with
    /// `--force` even if the caller can't change it back.
    ChangeFacl {
        path: &'a [u8],
        change: Change<'a>,
        is_forced: bool,
    },
    /// `mkdir -p P`: makes a directory, and its missing parents.
    MakeAll(&'a [u8]),
    /// `stat P`: the attributes of an object.
    Stat(&'a [u8]),
    /// `list P`: the lines of a directory's contents, or of another object.
    List(&'a [u8]),
    /// `path N`: the paths of the object with this file ID.
    PathOf(u64),
    /// `chown OWNER P`: sets the owner.
    ChOwn(&'a [u8], &'a [u8]),
    /// `chgrp GROUP P`: sets the owning group.
    ChGrp(&'a [u8], &'a [u8]),
    /// `touch [-t TIME] P`: sets the times to the server's, or to this one.
    Touch(SentTime, &'a [u8]),
    /// `ln -s TEXT P`: makes a symbolic link.
    SymLink(&'a [u8], &'a [u8]),
    /// `readlink P`: the text of a symbolic link.
    ReadLink(&'a [u8]),
    /// `cp OLD NEW`: makes the bytes of a file those of another.
    Copy(&'a [u8], &'a [u8]),
    /// `why USER RIGHTS P`: whether a user has permissions, and which entries decide that.
    Why {
        user: &'a str,
        rights: &'a str,
        path: &'a [u8],
    },
    /// `who RIGHTS P`: which users of a book have permissions.
    Who {
        rights: &'a str,
        path: &'a [u8],
    },
    /// A command with `-R`, and how it is run.
    Deep {
        deep: Deep<'a>,
        manner: Manner,
        path: &'a [u8],
    },
}

/// The flags after a command's name.
#[derive(Clone, Copy)]
struct Flags {
    is_deep: bool,
    manner: Manner,
    /// The number of these words.
    count: usize,
}

/// The flags that the words begin with.
fn flags_in(words: &[&str]) -> Flags {
    let mut flags = Flags {
        is_deep: false,
        manner: Manner {
            is_dry: false,
            is_forced: false,
        },
        count: 0,
    };
    for word in words {
        match *word {
            "-R" => flags.is_deep = true,
            "--dry-run" => flags.manner.is_dry = true,
            "--force" => flags.manner.is_forced = true,
            _ => return flags,
        }
        flags.count = flags.count.saturating_add(1);
    }
    flags
}

/// A command of this name with flags, from its words after them.
fn deep_of<'a>(name: &str, flags: Flags, rest: &'a [&'a [u8]]) -> Option<Wish<'a>> {
    let manner = flags.manner;
    let (deep, path) = match (name, rest) {
        ("setfacl", [path, entries @ ..]) if !entries.is_empty() => (Deep::SetFacl(entries), *path),
        _ if manner.is_forced => return None,
        ("list", [path]) if !manner.is_dry => (Deep::List, *path),
        ("chmod", [mode, path]) => (Deep::ChMod(mode), *path),
        ("rm", [path]) => (Deep::Rm, *path),
        _ => return None,
    };
    Some(Wish::Deep { deep, manner, path })
}

/// A command with `-R`.
fn deep_in<'a>(words: &[&str], bytes: &'a [&'a [u8]]) -> Option<Wish<'a>> {
    let [name, others @ ..] = words else {
        return None;
    };
    let flags = flags_in(others);
    if !flags.is_deep {
        return None;
    }
    deep_of(name, flags, bytes.get(flags.count.saturating_add(1)..)?)
}

/// The number of a word of decimal digits, from 1 on.
pub(crate) fn place_in(word: &str) -> Option<usize> {
    match word.parse::<usize>() {
        Ok(number) if number > 0 => Some(number),
        _ => None,
    }
}

/// The words of `addfacl` after the path, `[N] ENTRY..`. If no number is given, entries are
/// inserted before the first.
fn adding<'a>(first: &str, rest: &'a [&'a [u8]]) -> Option<Change<'a>> {
    match place_in(first) {
        Some(place) => match rest {
            [_, entries @ ..] if !entries.is_empty() => Some(Change::Add(place, entries)),
            _ => None,
        },
        None => Some(Change::Add(1, rest)),
    }
}

/// The change of an ACL by the command of this name, from its path on.
fn change_in<'a>(
    name: &str,
    words: &'a [&'a str],
    bytes: &'a [&'a [u8]],
    is_forced: bool,
) -> Option<Wish<'a>> {
    let (path, change) = match (name, words, bytes) {
        ("setfacl", _, [path, entries @ ..]) if !entries.is_empty() => (
            *path,
            Change::Set(entries),
        ),
        ("addfacl", [_, first, ..], [path, rest @ ..]) => (*path, adding(first, rest)?),
        ("delfacl", [_, numbers @ ..], [path, ..]) if !numbers.is_empty() => (
            *path,
            Change::Remove(numbers),
        ),
        _ => return None,
    };
    Some(Wish::ChangeFacl {
        path,
        change,
        is_forced,
    })
}

/// The change of an ACL by the words of a command.
fn facl_in<'a>(words: &'a [&'a str], bytes: &'a [&'a [u8]]) -> Option<Wish<'a>> {
    match (words, bytes) {
        ([name, "--force", words @ ..], [_, _, bytes @ ..]) => change_in(name, words, bytes, true),
        ([name, words @ ..], [_, bytes @ ..]) => change_in(name, words, bytes, false),
        _ => None,
    }
}

/// The time of a word.
fn sent_in(word: &str) -> Option<SentTime> {
    let (seconds, nanoseconds) = time_in(word)?;
    Some(SentTime::Client(seconds, nanoseconds))
}

/// The word of a command that should be a time. `None`: the command has no such word, or it is one.
pub(crate) fn wrong_time<'a>(words: &[&'a str]) -> Option<&'a str> {
    match words {
        ["touch", "-t", time, _] if time_in(time).is_none() => Some(*time),
        _ => None,
    }
}

/// A command whose words are bytes alone.
fn of_paths<'a>(words: &[&str], bytes: &'a [&'a [u8]]) -> Option<Wish<'a>> {
    match (words, bytes) {
        (["stat", _], [_, path]) => Some(Wish::Stat(path)),
        (["list", _], [_, path]) => Some(Wish::List(path)),
        (["readlink", _], [_, path]) => Some(Wish::ReadLink(path)),
        (["chown", _, _], [_, owner, path]) => Some(Wish::ChOwn(owner, path)),
        (["chgrp", _, _], [_, group, path]) => Some(Wish::ChGrp(group, path)),
        (["touch", _], [_, path]) => Some(Wish::Touch(SentTime::Server, path)),
        (["cp", _, _], [_, old, new]) => Some(Wish::Copy(old, new)),
        _ => Command::read(bytes).map(Wish::Plain),
    }
}

impl<'a> Wish<'a> {
    /// Reads the command of these words, as text and as bytes. `None`: no command has this name, or
    /// it has another number of words.
    pub(crate) fn read(words: &'a [&'a str], bytes: &'a [&'a [u8]]) -> Option<Self> {
        if let Some(wish) = deep_in(words, bytes) {
            return Some(wish);
        }
        match (words, bytes) {
            (["mkdir", "-p", _], [_, _, path]) => Some(Wish::MakeAll(path)),
            (["get", _], [_, path]) => Some(Wish::Get { path, file: None }),
            (["get", _, file], [_, path, _]) => Some(Wish::Get {
                path,
                file: Some(*file),
            }),
            (["send", file, _], [_, _, path]) => Some(Wish::Send { file, path }),
            (["getfacl", _], [_, path]) => Some(Wish::GetFacl(path)),
            (["setfacl" | "addfacl" | "delfacl", ..], _) => facl_in(words, bytes),
            (["ln", "-s", _, _], [_, _, text, path]) => Some(Wish::SymLink(text, path)),
            (["why", user, rights, _], [_, _, _, path]) => Some(Wish::Why { user, rights, path }),
            (["who", rights, _], [_, _, path]) => Some(Wish::Who { rights, path }),
            (["touch", "-t", time, _], [_, _, _, path]) => {
                Some(Wish::Touch(sent_in(time)?, path))
            }
            (["path", number], _) => match number.parse::<u64>() {
                Ok(number) => Some(Wish::PathOf(number)),
                Err(_) => None,
            },
            _ => of_paths(words, bytes),
        }
    }

    /// Whether standard input is read.
    pub(crate) fn takes_input(&self) -> bool {
        match self {
            Wish::Send { file, path: _ } => *file == "-",
            _ => false,
        }
    }
}
