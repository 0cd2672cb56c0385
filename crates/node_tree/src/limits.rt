//! The limits of a tree that no profile sets.
ghost use Rattle.std.specs.Prelude.{◌≡◌};
ghost use Rattle.node_tree.specs.Sound.{most_bytes};

use acl_list::Kind;
use nfs_types::Limits;

/// The object number of the root: all other directories are below it.
pub const ROOT: u64 = 1;

/// The most bytes of a symbolic link's text.
pub const MAX_TEXT: u64 = 1024;

/// The most bytes of a name.
pub const MAX_NAME: usize = 255;

/// The most bytes of an object: those of a file, or of a symbolic link's text. A directory has none.
pub fn most_bytes(limits: Limits, kind: Kind) -> u64
    ensures { result ≡ most_bytes limits kind }
{
    match kind {
        Kind::File => limits.bytes(),
        Kind::Directory => 0,
        Kind::Link => MAX_TEXT,
    }
}
