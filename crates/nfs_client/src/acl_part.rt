//! The ACL (access control list), or its part, that a command reads or sets.

use nfs_types::Attribute;

/// An ACL, or one of its parts (RFC 8881, sections 6.2.1 to 6.2.3).
#[derive(Clone, Copy, Debug, PartialEq, Eq)]
pub enum AclPart {
    /// acl: the whole ACL.
    Acl,
    /// dacl: the part that allows and denies.
    Dacl,
    /// sacl: the part that audits and alarms.
    Sacl,
}

impl AclPart {
    ghost use Rattle.std.specs.Prelude.{◌≡◌, ◌<◌};
    ghost use Rattle.nfs_client.specs.Acls.{attribute_of};

    /// The number of the attribute.
    pub(crate) fn number(self) -> u32
        ensures value { result ≡ attribute_of self }
        ensures small { result < 256 }
    {
        match self {
            AclPart::Acl => Attribute::Acl.number(),
            AclPart::Dacl => Attribute::Dacl.number(),
            AclPart::Sacl => Attribute::Sacl.number(),
        }
    }
}
