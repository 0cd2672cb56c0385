//! The faults of a run, and a sentence for each: what was wrong, and what would help.
use acl_words::Field;
use nfs_client::ToolFault;
use nfs_ops::{
    OP_CREATE, OP_CREATE_SESSION, OP_EXCHANGE_ID, OP_LINK, OP_OPEN, OP_RENAME, OP_SETATTR, OP_WRITE,
};
use nfs_types::Status;
use std::alloc::{AllocError, AllocFailed};

/// A fault in place of an answer.
#[derive(Clone, Copy, Debug, thiserror::Error)]
pub(crate) enum Fault {
    /// The server can't be connected to.
    #[error("socket")]
    Socket,
    /// The server accepts no connection in time.
    #[error("socket")]
    LateSocket,
    /// The system gives no random bytes for the owner of this run.
    #[error("random")]
    Random,
    /// A file of this system can't be read.
    #[error("file")]
    Unread,
    /// A file of this system can't be written.
    #[error("file")]
    Unwritten,
    /// More bytes than a file of the server may have.
    #[error("size")]
    TooLarge,
    /// The access control entry (ACE) of this number, counted from 1, can't be read.
    #[error("entry {0}")]
    Entry(usize, Field),
    /// The access control list (ACL) has no ACE of this number.
    #[error("number")]
    NoSuch,
    /// The words name no permission.
    #[error("right")]
    NoRight,
    /// The words name no user.
    #[error("user")]
    NoUser,
    /// No book is given whose users could be tested.
    #[error("book")]
    NoBook,
    /// The ACE of this number, counted from 1, has a principal whose number is unknown.
    #[error("entry {0}")]
    Stranger(usize),
    /// The owner or the owning group has an unknown number.
    #[error("owner")]
    NoNumber,
    /// No object with this file ID was found.
    #[error("object")]
    NoObject,
    /// The caller would lose the permission to read the ACL or to change it again.
    #[error("locked")]
    Locked,
    /// No ACE would be left.
    #[error("list")]
    NoneLeft,
    /// The objects are more than a command supports.
    #[error("tree")]
    TooMany,
    /// A directory can't be listed.
    #[error("tree")]
    Unlisted,
    /// The root can't be removed.
    #[error("root")]
    Root,
    /// The server refused this number of objects.
    #[error("refused {0}")]
    Partly(usize),
    /// Standard output can't be written.
    #[error("output")]
    Missing,
    /// A line of a batch needs standard input.
    #[error("input")]
    Input,
    /// A line of a batch is a batch.
    #[error("batch")]
    Nested,
    /// A line of a batch is no text.
    #[error("text")]
    Text,
    /// A line of a batch ends in a quote.
    #[error("quote")]
    Quote,
    /// The command has a fault.
    #[error("{0}")]
    Tool(ToolFault),
    /// A reply was late, and the command ends with this fault.
    #[error("{0}")]
    Late(ToolFault),
}

impl From<ToolFault> for Fault {
    fn from(fault: ToolFault) -> Self {
        Fault::Tool(fault)
    }
}

impl From<AllocError> for Fault {
    fn from(_: AllocError) -> Self {
        Fault::Tool(ToolFault::Memory)
    }
}

impl<T: Drop> From<AllocFailed<T>> for Fault {
    fn from(_: AllocFailed<T>) -> Self {
        Fault::Tool(ToolFault::Memory)
    }
}

/// The limits of this server that an operation may have reached if it is refused with NOSPC (RFC
/// 8881, section 15.1).
fn limits_of(op: u32) -> &'static str {
    match op {
        OP_CREATE => {
            "the directory has 4,096 names, or the server has 16,384 objects, or its disk is full"
        }
        OP_OPEN => {
            "the directory has 4,096 names, or the server has 16,384 objects or 4,096 open files, or its disk is full"
        }
        OP_LINK | OP_RENAME => "the directory has 4,096 names, or the server's disk is full",
        OP_SETATTR => "a list that is set has at most 59 entries, or the server's disk is full",
        OP_WRITE => "the server's disk is full",
        OP_EXCHANGE_ID => "the server has 64 clients, and takes no more",
        OP_CREATE_SESSION => "the server has 64 sessions, and takes no more",
        _ => "the server has no room left",
    }
}

/// Whether the server refuses an operation because an access control list (ACL) doesn't grant it.
pub(crate) fn is_denied(status: Status) -> bool {
    matches!(status, Status::Access | Status::Perm)
}

/// The meaning of a refusal (RFC 8881, section 15.1).
fn refusal(op: u32, status: Status) -> &'static str {
    match status {
        Status::Access | Status::Perm => "the access control list doesn't allow it to this user",
        Status::NoEnt => "there is no object of this name",
        Status::Exist => "there is an object of this name",
        Status::NotDir => "a name before the last isn't one of a directory",
        Status::IsDir => "it is a directory",
        Status::Symlink => "it is a symbolic link",
        Status::WrongType => "an object of this type has no such operation",
        Status::Inval =>
            "the server doesn't take these words: an entry, a mode, or a move into itself",
        Status::BadOwner => "a name isn't in the server's book",
        Status::AttrNotSupp => "the server doesn't take such entries",
        Status::FBig => "a file has at most 1,048,576 bytes",
        Status::NoSpc => limits_of(op),
        Status::MLink => "the object has as many names as it may have",
        Status::NameTooLong => "a name has at most 255 bytes",
        Status::BadChar => "a name is UTF-8",
        Status::BadName => "'.' and '..' are no names",
        Status::NotEmpty => "the directory isn't empty",
        Status::Stale => "the object was removed",
        Status::Delay => "the server has no memory left for it now; try again",
        Status::ClidInUse => "another user has a client of this name",
        _ => "the server refused it",
    }
}

/// The meaning of a fault of the client, and what would help.
fn sentence_of(fault: ToolFault) -> &'static str {
    match fault {
        ToolFault::Path => "a path is '/', or names each with '/' in front, as in /docs/notes",
        ToolFault::Refused(op, status) => refusal(op, status),
        ToolFault::Reply => "what the server sent is no reply, or it is longer than is taken",
        ToolFault::Read => "the server closed the connection",
        ToolFault::Write => "the server takes no more bytes",
        ToolFault::Memory => "there is no memory left here",
        ToolFault::Entry => "a mode or an entry can't be read",
        ToolFault::Failed => "an earlier command of this session failed",
        ToolFault::TooLarge =>
            "the words make a call of more than 131,072 bytes, which no server takes",
    }
}

impl Fault {
    /// A sentence on the fault: what was wrong, and what would help.
    pub(crate) fn sentence(self) -> &'static str {
        match self {
            Fault::Socket => "the server can't be reached",
            Fault::LateSocket | Fault::Late(_) => "no answer in time",
            Fault::Random => "the system gives no random bytes",
            Fault::Unread => "the file can't be read",
            Fault::Unwritten => "the file can't be written",
            Fault::TooLarge => "a file has at most 1,048,576 bytes; nothing was changed",
            Fault::Entry(_, field) => field.help(),
            Fault::NoSuch => "the list has no entry of this number; getfacl shows them from 1 on",
            Fault::NoRight => {
                "RIGHTS are names that 'nfsc why --help' lists, with commas between them, \
                 or letters that 'nfsc help lists' explains"
            }
            Fault::NoUser => {
                "a user is a name of --book FILE, or a number; with groups, as in 1002:100,200, \
                 where no book has members"
            }
            Fault::NoBook => "the users are those of a book: name it with --book FILE",
            Fault::Stranger(_) => {
                "the entry's name isn't in the book: name the server's with --book FILE"
            }
            Fault::NoNumber => {
                "the owner or the group isn't in the book: name the server's with --book FILE"
            }
            Fault::NoObject => "no object of this number is below what this user can list",
            Fault::Locked => {
                "this list would leave you without the right to read it or to change it again (c, C); \
                 with --force after the command it is set"
            }
            Fault::NoneLeft => "a list has at least one entry",
            Fault::TooMany => "there are more than 1,000,000 objects below it; nothing was changed",
            Fault::Unlisted => "not all of it can be listed; nothing was changed",
            Fault::Root => "the root has no name to be removed; name what is to go",
            Fault::Partly(_) => "these were refused, and the others were done",
            Fault::Missing => "what was to be printed can't be written",
            Fault::Input => "standard input has the commands of the batch; name a file",
            Fault::Nested => "a batch can't be a line of a batch",
            Fault::Text => "a line is UTF-8",
            Fault::Quote => "a quote is open at the end, or nothing comes after a backslash",
            Fault::Tool(fault) => sentence_of(fault),
        }
    }
}
