//! The answers of an access control list (ACL): a verdict, the access control entry (ACE) that decides a bit, and a
//! summary.

/// The verdict of an ACL on a mask (RFC 8881, section 6.2.1).
#[derive(Clone, Copy, Debug, PartialEq, Eq)]
pub enum Verdict {
    /// The first matching ACE of each bit of the mask is an ALLOW. The mask 0 is always granted.
    Granted,
    /// The first matching ACE of some bit of the mask is a DENY. This is the least index of these ACEs, counted from 0.
    Denied(usize),
    /// No bit of the mask is denied, and some bits match no ACE. This is the lowest of them, as a mask of one bit.
    Missing(u32),
}

/// The ACE that decides a bit: the first matching one, which is an ALLOW or DENY that applies and has the bit.
#[derive(Clone, Copy, Debug, PartialEq, Eq)]
pub enum FirstMatch {
    /// No ACE that applies has the bit.
    Unmatched,
    /// The ALLOW ACE at this index.
    AllowedBy(usize),
    /// The DENY ACE at this index.
    DeniedBy(usize),
}

/// The summary of an ACL for one caller, over all 32 bits of a mask.
#[derive(Clone, Copy, Debug, Default, PartialEq, Eq)]
pub struct Summary {
    /// The bits whose first matching ACE is an ALLOW.
    pub granted: u32,
    /// The bits that AUDIT and ALARM ACEs watch when access is granted.
    pub watch_ok: u32,
    /// The bits that AUDIT and ALARM ACEs watch when access is refused.
    pub watch_fail: u32,
}
