//! The two parts of an access control list (ACL).

use acl_list::{Entry, EntryKind};

/// A part of an ACL: each access control entry (ACE) is of the dacl or of the sacl.
#[derive(Clone, Copy, Debug, PartialEq, Eq)]
pub enum Part {
    /// dacl, the ALLOW and DENY ACEs (RFC 8881, section 6.2.2).
    Dacl,
    /// sacl, the AUDIT and ALARM ACEs (section 6.2.3).
    Sacl,
}

impl Part {
    ghost use Rattle.std.specs.Prelude.{◌≡◌, count_by};
    ghost use Rattle.acl_shape.specs.Parts.{is_of};

    /// Whether an ACE is of the part.
    pub fn has(self, entry: &Entry) -> bool
        ensures { result ≡ is_of self entry.now }
    {
        let is_of_dacl = matches!(entry.kind, EntryKind::Allow | EntryKind::Deny);
        match self {
            Part::Dacl => is_of_dacl,
            Part::Sacl => !is_of_dacl,
        }
    }

    /// The number of these ACEs that are of the part.
    pub fn count(self, entries: &[Entry]) -> usize
        ensures { result ≡ count_by (is_of self) entries.now }
    {
        entries.iter().filter(|entry| self.has(entry)).count()
    }
}
