//! The permissions of an access control entry's mask: acemask4 (RFC 8881, section 6.2.1.3).

/// ACE4_READ_DATA: read the bytes of a file, or the text of a link.
pub const READ_DATA: u32 = 0x0000_0001;

/// ACE4_LIST_DIRECTORY: list the names of a directory. It is the bit of `READ_DATA`.
pub const LIST_DIRECTORY: u32 = 0x0000_0001;

/// ACE4_WRITE_DATA: write into a file's bytes.
pub const WRITE_DATA: u32 = 0x0000_0002;

/// ACE4_ADD_FILE: add a name of a non-directory to a directory. It is the bit of `WRITE_DATA`.
pub const ADD_FILE: u32 = 0x0000_0002;

/// ACE4_APPEND_DATA: write at the end of a file.
pub const APPEND_DATA: u32 = 0x0000_0004;

/// ACE4_ADD_SUBDIRECTORY: create a directory in a directory. It is the bit of `APPEND_DATA`.
pub const ADD_SUBDIRECTORY: u32 = 0x0000_0004;

/// ACE4_READ_NAMED_ATTRS: read the named attributes. Kept and judged, though no operation here demands it.
pub const READ_NAMED_ATTRS: u32 = 0x0000_0008;

/// ACE4_WRITE_NAMED_ATTRS: write the named attributes. Kept and judged, though no operation here demands it.
pub const WRITE_NAMED_ATTRS: u32 = 0x0000_0010;

/// ACE4_EXECUTE: execute a file, or look up a name in a directory.
pub const EXECUTE: u32 = 0x0000_0020;

/// ACE4_DELETE_CHILD: remove a name from a directory (section 6.2.1.3.2).
pub const DELETE_CHILD: u32 = 0x0000_0040;

/// ACE4_READ_ATTRIBUTES: read the basic attributes.
pub const READ_ATTRIBUTES: u32 = 0x0000_0080;

/// ACE4_WRITE_ATTRIBUTES: change the times. Kept and judged, though no operation here demands it.
pub const WRITE_ATTRIBUTES: u32 = 0x0000_0100;

/// ACE4_WRITE_RETENTION: change retention. Kept and judged, though no operation here demands it.
pub const WRITE_RETENTION: u32 = 0x0000_0200;

/// ACE4_WRITE_RETENTION_HOLD: change retention holds. Kept and judged, though no operation here demands it.
pub const WRITE_RETENTION_HOLD: u32 = 0x0000_0400;

/// ACE4_DELETE: remove the object from its directory (section 6.2.1.3.2).
pub const DELETE: u32 = 0x0001_0000;

/// ACE4_READ_ACL: read the access control list (ACL).
pub const READ_ACL: u32 = 0x0002_0000;

/// ACE4_WRITE_ACL: change the ACL and the mode.
pub const WRITE_ACL: u32 = 0x0004_0000;

/// ACE4_WRITE_OWNER: change the owner and the owner's group.
pub const WRITE_OWNER: u32 = 0x0008_0000;

/// ACE4_SYNCHRONIZE: use the object for synchronization. Kept and judged, though no operation here demands it.
pub const SYNCHRONIZE: u32 = 0x0010_0000;

/// All bits that have a meaning.
pub const DEFINED: u32 = 0x001f_07ff;
