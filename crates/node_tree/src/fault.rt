//! The reasons to refuse a change.
ghost use Rattle.std.specs.Prelude.{◌≡◌};
ghost use Rattle.node_tree.specs.declared.fault.TreeFault.TheVariants.{Memory};

use std::alloc::AllocError;
use thiserror::Error;

/// Why a change was refused. The tree is unchanged then.
#[derive(Clone, Copy, Debug, PartialEq, Eq, Error)]
pub enum TreeFault {
    /// NFS4ERR_EXIST: the name is taken.
    #[error("the name is taken")]
    Exist,
    /// NFS4ERR_NOENT: the name doesn't exist.
    #[error("no such name")]
    NoEnt,
    /// NFS4ERR_NOTEMPTY: the directory has names.
    #[error("the directory isn't empty")]
    NotEmpty,
    /// NFS4ERR_INVAL: a directory would be below itself.
    #[error("the directory would lie below itself")]
    Inval,
    /// NFS4ERR_FBIG: the file would have more than [`crate::MAX_BYTES`] bytes.
    #[error("the file would be too big")]
    FBig,
    /// NFS4ERR_MLINK: the object has [`crate::MAX_LINKS`] names.
    #[error("the object has too many names")]
    MLink,
    /// NFS4ERR_NOSPC: the directory has [`crate::MAX_NAMES`] names, the tree has [`crate::MAX_OBJECTS`] objects, or a
    /// counter is at its end.
    #[error("no room left")]
    NoSpc,
    /// An allocation fails.
    #[error("out of memory")]
    Memory,
}

impl From<AllocError> for TreeFault {
    ghost from_gives = { λ _ fault. fault ≡ Memory };

    fn from(_: AllocError) -> Self {
        TreeFault::Memory
    }
}
