//! The flags of an access control entry (ACE): aceflag4 (RFC 8881, section 6.2.1.4).

/// ACE4_FILE_INHERIT_ACE: new non-directories in the directory inherit the ACE.
pub const FILE_INHERIT: u32 = 0x01;

/// ACE4_DIRECTORY_INHERIT_ACE: new directories in the directory inherit the ACE.
pub const DIRECTORY_INHERIT: u32 = 0x02;

/// ACE4_NO_PROPAGATE_INHERIT_ACE: children of the directory inherit the ACE, but nothing below them does.
pub const NO_PROPAGATE: u32 = 0x04;

/// ACE4_INHERIT_ONLY_ACE: the ACE exists to be inherited, and doesn't apply to the directory itself.
pub const INHERIT_ONLY: u32 = 0x08;

/// ACE4_SUCCESSFUL_ACCESS_ACE_FLAG: an AUDIT or ALARM ACE watches granted access.
pub const SUCCESSFUL: u32 = 0x10;

/// ACE4_FAILED_ACCESS_ACE_FLAG: an AUDIT or ALARM ACE watches refused access.
pub const FAILED: u32 = 0x20;

/// ACE4_IDENTIFIER_GROUP: the who is the name of a group. A [`crate::Who`] already distinguishes users from groups: the
/// flag is kept with the ACE and decides nothing.
pub const IDENTIFIER_GROUP: u32 = 0x40;

/// ACE4_INHERITED_ACE: the ACE was inherited. The flag is kept with the ACE.
pub const INHERITED: u32 = 0x80;

/// Every flag that has a meaning.
pub const DEFINED: u32 = 0xff;
