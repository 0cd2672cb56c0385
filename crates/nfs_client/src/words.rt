//! A command as words.
ghost use Rattle.std.specs.Prelude.{◌≡◌, map, option_map};
ghost use Rattle.nfs_client.specs.Words.{of_one, of_two, of_more, set_by, command_in};
ghost use Rattle.nfs_client.specs.WordViews.{command_line};

use crate::acl_part::AclPart;

const LS: &[u8] = b"ls";

const CAT: &[u8] = b"cat";

const MKDIR: &[u8] = b"mkdir";

const RM: &[u8] = b"rm";

const GETACL: &[u8] = b"getacl";

const GETDACL: &[u8] = b"getdacl";

const GETSACL: &[u8] = b"getsacl";

const ACCESS: &[u8] = b"access";

const PUT: &[u8] = b"put";

const LN: &[u8] = b"ln";

const MV: &[u8] = b"mv";

const CHMOD: &[u8] = b"chmod";

const SETACL: &[u8] = b"setacl";

const SETDACL: &[u8] = b"setdacl";

const SETSACL: &[u8] = b"setsacl";

/// A command, with its words as given. A wrong word is reported when the command is run.
#[derive(Clone, Copy, Debug)]
pub enum Command<'a> {
    /// `ls P`: lists a directory.
    Ls(&'a [u8]),
    /// `cat P`: the bytes of a file.
    Cat(&'a [u8]),
    /// `put P TEXT`: makes the text the bytes of a file.
    Put(&'a [u8], &'a [u8]),
    /// `mkdir P`: makes a directory.
    MkDir(&'a [u8]),
    /// `ln OLD NEW`: gives a file one more name.
    Ln(&'a [u8], &'a [u8]),
    /// `mv OLD NEW`: moves a name.
    Mv(&'a [u8], &'a [u8]),
    /// `rm P`: removes a name.
    Rm(&'a [u8]),
    /// `chmod OCTAL P`: sets the mode.
    ChMod(&'a [u8], &'a [u8]),
    /// `getacl P`, `getdacl P`, `getsacl P`: the ACL (access control list), or a part of it.
    GetAcl(AclPart, &'a [u8]),
    /// `setacl P ENTRY..`, `setdacl P ENTRY..`, `setsacl P ENTRY..`: sets the ACL or a part of it, to at least one
    /// ACE.
    SetAcl(AclPart, &'a [u8], &'a [&'a [u8]]),
    /// `access P`: the permissions of the caller.
    Access(&'a [u8]),
}

/// A command of one path.
fn of_one<'a>(name: &[u8], path: &'a [u8]) -> Option<Command<'a>>
    ensures { option_map command_line result ≡ of_one name.now path.entry.now }
{
    if name == LS {
        Some(Command::Ls(path))
    } else if name == CAT {
        Some(Command::Cat(path))
    } else if name == MKDIR {
        Some(Command::MkDir(path))
    } else if name == RM {
        Some(Command::Rm(path))
    } else if name == GETACL {
        Some(Command::GetAcl(AclPart::Acl, path))
    } else if name == GETDACL {
        Some(Command::GetAcl(AclPart::Dacl, path))
    } else if name == GETSACL {
        Some(Command::GetAcl(AclPart::Sacl, path))
    } else if name == ACCESS {
        Some(Command::Access(path))
    } else {
        None
    }
}

/// A command of two words.
fn of_two<'a>(name: &[u8], first: &'a [u8], second: &'a [u8]) -> Option<Command<'a>>
    ensures { option_map command_line result ≡ of_two name.now first.entry.now second.entry.now }
{
    if name == PUT {
        Some(Command::Put(first, second))
    } else if name == LN {
        Some(Command::Ln(first, second))
    } else if name == MV {
        Some(Command::Mv(first, second))
    } else if name == CHMOD {
        Some(Command::ChMod(first, second))
    } else {
        None
    }
}

/// The ACL or part that a command of this name sets, if it sets one.
fn set_by(name: &[u8]) -> Option<AclPart>
    ensures { result ≡ set_by name.now }
{
    if name == SETACL {
        Some(AclPart::Acl)
    } else if name == SETDACL {
        Some(AclPart::Dacl)
    } else if name == SETSACL {
        Some(AclPart::Sacl)
    } else {
        None
    }
}

/// A command of two words or more.
fn of_more<'a>(name: &[u8], first: &'a [u8], others: &'a [&'a [u8]]) -> Option<Command<'a>>
    ensures { option_map command_line result ≡ of_more name.now first.entry.now (map (λ w. w.now) others.entry.now) }
{
    if let Some(part) = set_by(name) {
        return (!others.is_empty()).then_some(Command::SetAcl(part, first, others));
    }
    match others {
        [second] => of_two(name, first, second),
        _ => None,
    }
}

impl<'a> Command<'a> {
    /// The command of words. `None`: no command has the name, or it has another number of words.
    pub fn read(words: &'a [&'a [u8]]) -> Option<Self>
        ensures { option_map command_line result ≡ command_in (map (λ w. w.now) words.entry.now) }
    {
        match words {
            [name, path] => of_one(name, path),
            [name, first, rest @ ..] => of_more(name, first, rest),
            _ => None,
        }
    }
}
