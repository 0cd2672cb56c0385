//! A client's access control list (ACL), and the errors that refuse it.

use acl_list::Who;
use thiserror::Error;

/// An access control entry (ACE) as a client sends it: nfsace4 (RFC 8881, section 6.2.1), with any numbers.
#[derive(Clone, Copy, PartialEq, Eq)]
pub struct Raw {
    /// acetype4: 0 to 3 are known.
    pub kind: u32,
    /// aceflag4: the lowest eight bits are known.
    pub flags: u32,
    /// acemask4: the bits of [`acl_list::mask::DEFINED`] are known.
    pub mask: u32,
    /// The principal of the ACE. `None`: nobody has the name that was sent.
    pub who: Option<Who>,
}

/// Why an ACL is refused.
#[derive(Clone, Copy, Debug, PartialEq, Eq, Error)]
pub enum AdmitFault {
    /// NFS4ERR_NOSPC: the ACL has more than [`crate::MAX_KEPT`] ACEs.
    #[error("a list of more than 59 entries")]
    NoSpc,
    /// NFS4ERR_ATTRNOTSUPP: the type of an ACE is above 3.
    #[error("an entry of an unknown type")]
    AttrNotSupp,
    /// NFS4ERR_INVAL: an ACE has a flag or a mask bit that the standard doesn't define.
    #[error("an entry with an undefined flag or mask bit")]
    Inval,
    /// NFS4ERR_BADOWNER: nobody has the name in an ACE.
    #[error("an entry about nobody known")]
    BadOwner,
    /// The allocation of the ACL fails.
    #[error("out of memory")]
    Memory,
}
