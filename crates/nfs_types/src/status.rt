//! Statuses, `nfsstat4` (RFC 8881, section 15).
ghost use Rattle.std.specs.Prelude.{◌≡◌};

use std::fmt;
use std::fmt::{Debug, Formatter};

/// The outcome of an operation, `nfsstat4` (RFC 8881, section 15.1), of those that this server returns.
#[derive(Clone, Copy, PartialEq, Eq)]
pub enum Status {
    /// NFS4_OK: the operation was done.
    Ok = 0,
    /// NFS4ERR_PERM: the caller may not give an object away.
    Perm = 1,
    /// NFS4ERR_NOENT: the name doesn't exist.
    NoEnt = 2,
    /// NFS4ERR_ACCESS: an access control list refuses the access.
    Access = 13,
    /// NFS4ERR_EXIST: the name exists already.
    Exist = 17,
    /// NFS4ERR_NOTDIR: the object isn't a directory.
    NotDir = 20,
    /// NFS4ERR_ISDIR: the object is a directory.
    IsDir = 21,
    /// NFS4ERR_INVAL: an argument is invalid.
    Inval = 22,
    /// NFS4ERR_FBIG: the file would exceed its largest size.
    FBig = 27,
    /// NFS4ERR_NOSPC: a table, a list or a counter is full.
    NoSpc = 28,
    /// NFS4ERR_MLINK: the object has the largest number of names.
    MLink = 31,
    /// NFS4ERR_NAMETOOLONG: a name or a link text is too long.
    NameTooLong = 63,
    /// NFS4ERR_NOTEMPTY: a directory isn't empty.
    NotEmpty = 66,
    /// NFS4ERR_STALE: the object of the filehandle no longer exists.
    Stale = 70,
    /// NFS4ERR_BADHANDLE: the filehandle is malformed.
    BadHandle = 10001,
    /// NFS4ERR_BAD_COOKIE: no entry of a directory has had this cookie.
    BadCookie = 10003,
    /// NFS4ERR_NOTSUPP: the operation isn't supported.
    NotSupp = 10004,
    /// NFS4ERR_TOOSMALL: the reply has less room than the first entry, or a size is too small.
    TooSmall = 10005,
    /// NFS4ERR_SERVERFAULT: a fault of the server. This server never returns it.
    ServerFault = 10006,
    /// NFS4ERR_BADTYPE: no object of this type can be created.
    BadType = 10007,
    /// NFS4ERR_DELAY: an allocation failed; the operation changed nothing, and may be retried.
    Delay = 10008,
    /// NFS4ERR_SAME: the attributes equal those that were sent.
    Same = 10009,
    /// NFS4ERR_CLID_INUSE: the client owner is in use by another user.
    ClidInUse = 10017,
    /// NFS4ERR_NOFILEHANDLE: no current or saved filehandle is set.
    NoFileHandle = 10020,
    /// NFS4ERR_MINOR_VERS_MISMATCH: the minor version isn't 1.
    MinorVersMismatch = 10021,
    /// NFS4ERR_STALE_CLIENTID: the client doesn't exist.
    StaleClientId = 10022,
    /// NFS4ERR_OLD_STATEID: a newer stateid has replaced the stateid.
    OldStateId = 10024,
    /// NFS4ERR_BAD_STATEID: the stateid doesn't exist.
    BadStateId = 10025,
    /// NFS4ERR_NOT_SAME: the attributes differ from those that were sent.
    NotSame = 10027,
    /// NFS4ERR_SYMLINK: the object is a symbolic link.
    Symlink = 10029,
    /// NFS4ERR_ATTRNOTSUPP: an attribute, or a type of access control entry, isn't supported.
    AttrNotSupp = 10032,
    /// NFS4ERR_BADXDR: the bytes aren't an encoding of the arguments.
    BadXdr = 10036,
    /// NFS4ERR_OPENMODE: the file isn't open for this.
    OpenMode = 10038,
    /// NFS4ERR_BADOWNER: nobody has this name.
    BadOwner = 10039,
    /// NFS4ERR_BADCHAR: a name has a character that isn't allowed.
    BadChar = 10040,
    /// NFS4ERR_BADNAME: no object can have the name.
    BadName = 10041,
    /// NFS4ERR_OP_ILLEGAL: no operation has this number.
    OpIllegal = 10044,
    /// NFS4ERR_BADSESSION: the session doesn't exist.
    BadSession = 10052,
    /// NFS4ERR_BADSLOT: the session doesn't have the slot.
    BadSlot = 10053,
    /// NFS4ERR_COMPLETE_ALREADY: the client has completed its reclaims already.
    CompleteAlready = 10054,
    /// NFS4ERR_SEQ_MISORDERED: the sequence ID is neither the next nor the last.
    SeqMisordered = 10063,
    /// NFS4ERR_SEQUENCE_POS: a SEQUENCE isn't the first operation.
    SequencePos = 10064,
    /// NFS4ERR_REQ_TOO_BIG: the request is larger than the session allows.
    ReqTooBig = 10065,
    /// NFS4ERR_REP_TOO_BIG: the reply has no room for the result.
    RepTooBig = 10066,
    /// NFS4ERR_REP_TOO_BIG_TO_CACHE: the reply has no room for the result, and was to be cached.
    RepTooBigToCache = 10067,
    /// NFS4ERR_TOO_MANY_OPS: the COMPOUND has more operations than the session allows.
    TooManyOps = 10070,
    /// NFS4ERR_OP_NOT_IN_SESSION: the operation needs a session.
    OpNotInSession = 10071,
    /// NFS4ERR_CLIENTID_BUSY: the client has sessions or opens.
    ClientIdBusy = 10074,
    /// NFS4ERR_SEQ_FALSE_RETRY: another request has the sequence ID of the last one.
    SeqFalseRetry = 10076,
    /// NFS4ERR_BAD_HIGH_SLOT: the session doesn't have the highest slot.
    BadHighSlot = 10077,
    /// NFS4ERR_NOT_ONLY_OP: the operation must be the only one.
    NotOnlyOp = 10081,
    /// NFS4ERR_WRONG_TYPE: the object isn't of the type that the operation needs.
    WrongType = 10083,
}

impl Status {
    ghost use Rattle.nfs_types.specs.Status.{number_of, status_at, name_of};

    /// The number of the status in XDR.
    pub fn number(self) -> u32
        ensures { result ≡ number_of self }
    {
        self as u32
    }

    /// The status with this number. `None`: this server doesn't have it.
    #[tactic(auto, unfolding(crate::specs::Status::status_at))]
    pub fn of_number(number: u32) -> Option<Status>
        ensures { result ≡ status_at number }
    {
        match number {
            0 => Some(Status::Ok),
            1 => Some(Status::Perm),
            2 => Some(Status::NoEnt),
            13 => Some(Status::Access),
            17 => Some(Status::Exist),
            20 => Some(Status::NotDir),
            21 => Some(Status::IsDir),
            22 => Some(Status::Inval),
            27 => Some(Status::FBig),
            28 => Some(Status::NoSpc),
            31 => Some(Status::MLink),
            63 => Some(Status::NameTooLong),
            66 => Some(Status::NotEmpty),
            70 => Some(Status::Stale),
            10_001 => Some(Status::BadHandle),
            10_003 => Some(Status::BadCookie),
            10_004 => Some(Status::NotSupp),
            10_005 => Some(Status::TooSmall),
            10_006 => Some(Status::ServerFault),
            10_007 => Some(Status::BadType),
            10_008 => Some(Status::Delay),
            10_009 => Some(Status::Same),
            10_017 => Some(Status::ClidInUse),
            10_020 => Some(Status::NoFileHandle),
            10_021 => Some(Status::MinorVersMismatch),
            10_022 => Some(Status::StaleClientId),
            10_024 => Some(Status::OldStateId),
            10_025 => Some(Status::BadStateId),
            10_027 => Some(Status::NotSame),
            10_029 => Some(Status::Symlink),
            10_032 => Some(Status::AttrNotSupp),
            10_036 => Some(Status::BadXdr),
            10_038 => Some(Status::OpenMode),
            10_039 => Some(Status::BadOwner),
            10_040 => Some(Status::BadChar),
            10_041 => Some(Status::BadName),
            10_044 => Some(Status::OpIllegal),
            10_052 => Some(Status::BadSession),
            10_053 => Some(Status::BadSlot),
            10_054 => Some(Status::CompleteAlready),
            10_063 => Some(Status::SeqMisordered),
            10_064 => Some(Status::SequencePos),
            10_065 => Some(Status::ReqTooBig),
            10_066 => Some(Status::RepTooBig),
            10_067 => Some(Status::RepTooBigToCache),
            10_070 => Some(Status::TooManyOps),
            10_071 => Some(Status::OpNotInSession),
            10_074 => Some(Status::ClientIdBusy),
            10_076 => Some(Status::SeqFalseRetry),
            10_077 => Some(Status::BadHighSlot),
            10_081 => Some(Status::NotOnlyOp),
            10_083 => Some(Status::WrongType),
            _ => None,
        }
    }

    /// The name, without `NFS4ERR_`.
    pub fn name(self) -> &'static str
        ensures { result.now ≡ name_of self }
    {
        match self {
            Status::Ok => "OK",
            Status::Perm => "PERM",
            Status::NoEnt => "NOENT",
            Status::Access => "ACCESS",
            Status::Exist => "EXIST",
            Status::NotDir => "NOTDIR",
            Status::IsDir => "ISDIR",
            Status::Inval => "INVAL",
            Status::FBig => "FBIG",
            Status::NoSpc => "NOSPC",
            Status::MLink => "MLINK",
            Status::NameTooLong => "NAMETOOLONG",
            Status::NotEmpty => "NOTEMPTY",
            Status::Stale => "STALE",
            Status::BadHandle => "BADHANDLE",
            Status::BadCookie => "BAD_COOKIE",
            Status::NotSupp => "NOTSUPP",
            Status::TooSmall => "TOOSMALL",
            Status::ServerFault => "SERVERFAULT",
            Status::BadType => "BADTYPE",
            Status::Delay => "DELAY",
            Status::Same => "SAME",
            Status::ClidInUse => "CLID_INUSE",
            Status::NoFileHandle => "NOFILEHANDLE",
            Status::MinorVersMismatch => "MINOR_VERS_MISMATCH",
            Status::StaleClientId => "STALE_CLIENTID",
            Status::OldStateId => "OLD_STATEID",
            Status::BadStateId => "BAD_STATEID",
            Status::NotSame => "NOT_SAME",
            Status::Symlink => "SYMLINK",
            Status::AttrNotSupp => "ATTRNOTSUPP",
            Status::BadXdr => "BADXDR",
            Status::OpenMode => "OPENMODE",
            Status::BadOwner => "BADOWNER",
            Status::BadChar => "BADCHAR",
            Status::BadName => "BADNAME",
            Status::OpIllegal => "OP_ILLEGAL",
            Status::BadSession => "BADSESSION",
            Status::BadSlot => "BADSLOT",
            Status::CompleteAlready => "COMPLETE_ALREADY",
            Status::SeqMisordered => "SEQ_MISORDERED",
            Status::SequencePos => "SEQUENCE_POS",
            Status::ReqTooBig => "REQ_TOO_BIG",
            Status::RepTooBig => "REP_TOO_BIG",
            Status::RepTooBigToCache => "REP_TOO_BIG_TO_CACHE",
            Status::TooManyOps => "TOO_MANY_OPS",
            Status::OpNotInSession => "OP_NOT_IN_SESSION",
            Status::ClientIdBusy => "CLIENTID_BUSY",
            Status::SeqFalseRetry => "SEQ_FALSE_RETRY",
            Status::BadHighSlot => "BAD_HIGH_SLOT",
            Status::NotOnlyOp => "NOT_ONLY_OP",
            Status::WrongType => "WRONG_TYPE",
        }
    }
}

impl Debug for Status {
    fn fmt<W: fmt::Write>(&self, f: &mut Formatter<W>) -> fmt::Result {
        f.write_str(self.name())
    }
}
