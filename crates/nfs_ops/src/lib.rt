//! The operations of NFS version 4.1 and their results (RFC 8881, section 18): reading them from bytes and writing
//! them.
#![tactic(auto)]

mod access;
mod always;
mod bytes;
mod callback_security;
mod change_info;
mod channel;
mod close;
mod commit;
mod create;
mod create_session;
mod destroy_clientid;
mod destroy_session;
mod exchange_id;
mod getattr;
mod getfh;
mod implementation;
mod laws;
mod link;
mod listing;
mod lookup;
mod lookupp;
mod nverify;
mod op_kind;
mod op_result;
mod open;
mod operation;
mod putfh;
mod putrootfh;
mod read;
mod readdir;
mod reading;
mod readlink;
mod reclaim_complete;
mod remove;
mod rename;
mod restorefh;
mod result_reading;
mod results;
mod savefh;
mod sequence;
mod setattr;
mod unsupported;
mod verify;
mod write;
mod writing;

use nfs_types::Status;

// Operations and results.
pub use op_kind::{Placement, operation_name};
pub use reading::next_op;
pub use result_reading::read_result;
pub use results::{write_refusal, write_result};
pub use writing::write_op;

// Each operation's arguments and result.
pub use access::{AccessArgs, AccessResult, OP_ACCESS};
pub use close::{CloseArgs, CloseResult, OP_CLOSE};
pub use commit::{CommitArgs, CommitResult, OP_COMMIT};
pub use create::{CreateArgs, CreateResult, CreateType, OP_CREATE};
pub use create_session::{CreateSessionArgs, CreateSessionResult, OP_CREATE_SESSION};
pub use destroy_clientid::{DestroyClientIdArgs, OP_DESTROY_CLIENTID};
pub use destroy_session::{DestroySessionArgs, OP_DESTROY_SESSION};
pub use exchange_id::{ExchangeIdArgs, ExchangeIdResult, MAX_SERVER, OP_EXCHANGE_ID, SERVER_NAME};
pub use getattr::{GetAttrArgs, GetAttrResult, OP_GETATTR, write_getattr};
pub use getfh::{GetFhResult, OP_GETFH};
pub use link::{LinkArgs, LinkResult, OP_LINK};
pub use listing::{Entries, ListFault, Next, write_entry, write_readdir};
pub use lookup::{LookupArgs, OP_LOOKUP};
pub use lookupp::OP_LOOKUPP;
pub use nverify::{NVerifyArgs, OP_NVERIFY};
pub use open::{OP_OPEN, OpenArgs, OpenClaim, OpenHow, OpenResult};
pub use putfh::{OP_PUTFH, PutFhArgs};
pub use putrootfh::OP_PUTROOTFH;
pub use read::{MAX_READ, OP_READ, ReadArgs, ReadResult, write_read};
pub use readdir::{Entry, GivenEntry, OP_READDIR, ReadDirArgs, ReadDirResult};
pub use readlink::{OP_READLINK, ReadLinkResult};
pub use reclaim_complete::{OP_RECLAIM_COMPLETE, ReclaimCompleteArgs};
pub use remove::{OP_REMOVE, RemoveArgs, RemoveResult};
pub use rename::{OP_RENAME, RenameArgs, RenameResult};
pub use restorefh::OP_RESTOREFH;
pub use savefh::OP_SAVEFH;
pub use sequence::{OP_SEQUENCE, SequenceArgs, SequenceResult};
pub use setattr::{OP_SETATTR, SetAttrArgs, SetAttrResult};
pub use verify::{OP_VERIFY, VerifyArgs};
pub use write::{OP_WRITE, StableHow, WriteArgs, WriteResult};

// The parts of several operations.
pub use always::{Always, Zeros};
pub use bytes::Bytes;
pub use callback_security::{AuthSys, CallbackSecurity, GssHandles};
pub use change_info::ChangeInfo;
pub use channel::Channel;
pub use implementation::Implementation;

// Laws of reading and writing.
pub use laws::{
    a_listing_is_the_longest, a_result_at_the_start_is_read, a_result_that_is_read_is_at_the_start,
    a_written_result_is_read, changes_are_short, reading_a_result_looks_no_further,
    reading_is_spelling, reading_looks_no_further, refusals_are_short, results_are_bounded,
    sizes_of_carried_bytes_are_exact, what_is_written_is_read,
};

/// The operations that this server has, without their arguments (RFC 8881, section 18).
#[derive(Clone, Copy, PartialEq, Eq)]
pub enum OpKind {
    /// ACCESS.
    Access,
    /// CLOSE.
    Close,
    /// COMMIT.
    Commit,
    /// CREATE.
    Create,
    /// GETATTR.
    GetAttr,
    /// GETFH.
    GetFh,
    /// LINK.
    Link,
    /// LOOKUP.
    Lookup,
    /// LOOKUPP.
    LookupP,
    /// NVERIFY.
    NVerify,
    /// OPEN.
    Open,
    /// PUTFH.
    PutFh,
    /// PUTROOTFH.
    PutRootFh,
    /// READ.
    Read,
    /// READDIR.
    ReadDir,
    /// READLINK.
    ReadLink,
    /// REMOVE.
    Remove,
    /// RENAME.
    Rename,
    /// RESTOREFH.
    RestoreFh,
    /// SAVEFH.
    SaveFh,
    /// SETATTR.
    SetAttr,
    /// VERIFY.
    Verify,
    /// WRITE.
    Write,
    /// EXCHANGE_ID.
    ExchangeId,
    /// CREATE_SESSION.
    CreateSession,
    /// DESTROY_SESSION.
    DestroySession,
    /// SEQUENCE.
    Sequence,
    /// DESTROY_CLIENTID.
    DestroyClientId,
    /// RECLAIM_COMPLETE.
    ReclaimComplete,
}

/// The table of the operations, one row each. A row has its variant (with its arguments if it takes any), number, name
/// and place in a COMPOUND, and its result if it has one. The macro passes all rows to the macro `$by`, after the
/// tokens that it was given for it.
macro_rules! rows {
    ($by:ident $(, $with:expr)*) => {
        $by! {
            $($with),*;
            Access(arguments) OP_ACCESS b"ACCESS" Anywhere (given),
            Close(arguments) OP_CLOSE b"CLOSE" Anywhere (given),
            Commit(arguments) OP_COMMIT b"COMMIT" Anywhere (given),
            Create(arguments) OP_CREATE b"CREATE" Anywhere (given),
            GetAttr(arguments) OP_GETATTR b"GETATTR" Anywhere (given),
            GetFh OP_GETFH b"GETFH" Anywhere (given),
            Link(arguments) OP_LINK b"LINK" Anywhere (given),
            Lookup(arguments) OP_LOOKUP b"LOOKUP" Anywhere,
            LookupP OP_LOOKUPP b"LOOKUPP" Anywhere,
            NVerify(arguments) OP_NVERIFY b"NVERIFY" Anywhere,
            Open(arguments) OP_OPEN b"OPEN" Anywhere (given),
            PutFh(arguments) OP_PUTFH b"PUTFH" Anywhere,
            PutRootFh OP_PUTROOTFH b"PUTROOTFH" Anywhere,
            Read(arguments) OP_READ b"READ" Anywhere (given),
            ReadDir(arguments) OP_READDIR b"READDIR" Anywhere (given),
            ReadLink OP_READLINK b"READLINK" Anywhere (given),
            Remove(arguments) OP_REMOVE b"REMOVE" Anywhere (given),
            Rename(arguments) OP_RENAME b"RENAME" Anywhere (given),
            RestoreFh OP_RESTOREFH b"RESTOREFH" Anywhere,
            SaveFh OP_SAVEFH b"SAVEFH" Anywhere,
            SetAttr(arguments) OP_SETATTR b"SETATTR" Anywhere (given),
            Verify(arguments) OP_VERIFY b"VERIFY" Anywhere,
            Write(arguments) OP_WRITE b"WRITE" Anywhere (given),
            ExchangeId(arguments) OP_EXCHANGE_ID b"EXCHANGE_ID" Alone (given),
            CreateSession(arguments) OP_CREATE_SESSION b"CREATE_SESSION" Alone (given),
            DestroySession(arguments) OP_DESTROY_SESSION b"DESTROY_SESSION" Alone,
            Sequence(arguments) OP_SEQUENCE b"SEQUENCE" First (given),
            DestroyClientId(arguments) OP_DESTROY_CLIENTID b"DESTROY_CLIENTID" Alone,
            ReclaimComplete(arguments) OP_RECLAIM_COMPLETE b"RECLAIM_COMPLETE" InSession,
        }
    };
}

pub(crate) use rows;

/// An operation with its arguments (RFC 8881, sections 16.2 and 18), or why none can be run.
#[derive(Drop)]
pub enum Op<'a> {
    /// ACCESS: checks access rights of the caller.
    Access(AccessArgs),
    /// CLOSE: closes an open.
    Close(CloseArgs),
    /// COMMIT: makes bytes stable.
    Commit(CommitArgs),
    /// CREATE: creates an object that isn't a file.
    Create(CreateArgs<'a>),
    /// GETATTR: reads attributes of the object.
    GetAttr(GetAttrArgs),
    /// GETFH: returns the current filehandle.
    GetFh,
    /// LINK: adds a name.
    Link(LinkArgs<'a>),
    /// LOOKUP: moves to a child.
    Lookup(LookupArgs<'a>),
    /// LOOKUPP (section 18.14): moves to the parent.
    LookupP,
    /// NVERIFY: continues only if attributes differ.
    NVerify(NVerifyArgs<'a>),
    /// OPEN: opens a file.
    Open(OpenArgs<'a>),
    /// PUTFH: moves to an object by its filehandle.
    PutFh(PutFhArgs<'a>),
    /// PUTROOTFH (section 18.21): moves to the root.
    PutRootFh,
    /// READ: reads bytes of a file.
    Read(ReadArgs),
    /// READDIR: lists entries of a directory.
    ReadDir(ReadDirArgs),
    /// READLINK: reads the text of a symbolic link.
    ReadLink,
    /// REMOVE: removes a name.
    Remove(RemoveArgs<'a>),
    /// RENAME: moves a name.
    Rename(RenameArgs<'a>),
    /// RESTOREFH (section 18.27): moves to the saved object.
    RestoreFh,
    /// SAVEFH (section 18.28): saves the current object.
    SaveFh,
    /// SETATTR: sets attributes.
    SetAttr(SetAttrArgs<'a>),
    /// VERIFY: continues only if attributes have these values.
    Verify(VerifyArgs<'a>),
    /// WRITE: writes bytes of a file.
    Write(WriteArgs<'a>),
    /// EXCHANGE_ID: registers a client.
    ExchangeId(ExchangeIdArgs<'a>),
    /// CREATE_SESSION: creates a session.
    CreateSession(CreateSessionArgs<'a>),
    /// DESTROY_SESSION: destroys a session.
    DestroySession(DestroySessionArgs),
    /// SEQUENCE: begins a request of a session.
    Sequence(SequenceArgs),
    /// DESTROY_CLIENTID: destroys a client ID.
    DestroyClientId(DestroyClientIdArgs),
    /// RECLAIM_COMPLETE: the client reclaims no more.
    ReclaimComplete(ReclaimCompleteArgs),
    /// A number from 3 to 58 whose operation isn't supported, and whose arguments aren't read. It may also be that of
    /// an OPEN or an EXCHANGE_ID whose arguments aren't supported.
    Unsupported(u32),
    /// A number that isn't the number of any operation.
    Illegal,
    /// The arguments of the operation with this number can't be read. If the number is missing, it is OP_ILLEGAL.
    Bad(u32),
}

/// The result of an operation (RFC 8881, sections 16.2 and 18).
#[derive(Drop)]
pub enum OpResult<'a> {
    /// ACCESS.
    Access(AccessResult),
    /// CLOSE.
    Close(CloseResult),
    /// COMMIT.
    Commit(CommitResult),
    /// CREATE.
    Create(CreateResult),
    /// GETATTR.
    GetAttr(GetAttrResult<'a>),
    /// GETFH.
    GetFh(GetFhResult<'a>),
    /// LINK.
    Link(LinkResult),
    /// LOOKUP.
    Lookup,
    /// LOOKUPP.
    LookupP,
    /// NVERIFY.
    NVerify,
    /// OPEN.
    Open(OpenResult),
    /// PUTFH.
    PutFh,
    /// PUTROOTFH.
    PutRootFh,
    /// READ.
    Read(ReadResult<'a>),
    /// READDIR.
    ReadDir(ReadDirResult<'a>),
    /// READLINK.
    ReadLink(ReadLinkResult<'a>),
    /// REMOVE.
    Remove(RemoveResult),
    /// RENAME.
    Rename(RenameResult),
    /// RESTOREFH.
    RestoreFh,
    /// SAVEFH.
    SaveFh,
    /// SETATTR.
    SetAttr(SetAttrResult),
    /// VERIFY.
    Verify,
    /// WRITE.
    Write(WriteResult),
    /// EXCHANGE_ID.
    ExchangeId(ExchangeIdResult<'a>),
    /// CREATE_SESSION.
    CreateSession(CreateSessionResult),
    /// DESTROY_SESSION.
    DestroySession,
    /// SEQUENCE.
    Sequence(SequenceResult),
    /// DESTROY_CLIENTID.
    DestroyClientId,
    /// RECLAIM_COMPLETE.
    ReclaimComplete,
    /// The operation with this number has this status, which isn't OK.
    Refused(u32, Status),
}
