//! A line of the trail.

use crate::decision::Cause;

/// The type of a line (RFC 8881, section 6.2.1.1).
#[derive(Clone, Copy, PartialEq, Eq)]
pub enum LineKind {
    /// An AUDIT access control entry (ACE) logs an access.
    Audit,
    /// An ALARM ACE reports an access.
    Alarm,
    /// An access was refused.
    Deny,
}

/// A line of the trail.
#[derive(Clone, Copy, PartialEq, Eq)]
pub struct Line {
    /// The type of the line.
    pub kind: LineKind,
    /// The user of the caller.
    pub uid: u32,
    /// The number of the operation (RFC 8881, section 18).
    pub op: u32,
    /// The object number.
    pub object: u64,
    /// The bits that the ACE watches, of those demanded of the object; in a DENY line all that were demanded of it.
    pub mask: u32,
    /// Whether the access was granted. A DENY line has `false`.
    pub granted: bool,
    /// The ACE that watches or denies, or the bit that no ACE allows.
    pub cause: Cause,
}
