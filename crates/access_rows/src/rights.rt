//! The result of ACCESS (RFC 8881, section 18.1): the access rights that are supported for an object, and those that
//! its access control list (ACL) grants.
ghost use Rattle.std.specs.Prelude.{◌≡◌, bit_and};
ghost use Rattle.acl_list.specs.Mask.{has_bit};
ghost use Rattle.access_rows.specs.Rights as specs;

use acl_list::{Kind, mask};

/// ACCESS4_READ: read a file's bytes or a link's text, or list a directory.
const READ: u32 = 0x01;

/// ACCESS4_LOOKUP: look up a name in a directory.
const LOOKUP: u32 = 0x02;

/// ACCESS4_MODIFY: overwrite a file's bytes, or change a directory's entries.
const MODIFY: u32 = 0x04;

/// ACCESS4_EXTEND: write at the end of a file, or add entries to a directory.
const EXTEND: u32 = 0x08;

/// ACCESS4_DELETE: remove an entry of a directory.
const DELETE: u32 = 0x10;

/// ACCESS4_EXECUTE: execute a file.
const EXECUTE: u32 = 0x20;

/// The two words of ACCESS's result.
#[derive(Clone, Copy, PartialEq, Eq)]
pub struct Rights {
    /// The rights that were requested and are supported for the type of the object.
    pub supported: u32,
    /// The supported rights that the object's ACL grants.
    pub granted: u32,
}

/// The result of ACCESS for an object of this type. `asked` are the rights that are requested, and `grants` the
/// permissions that the object's ACL grants the caller. READ needs READ_DATA, LOOKUP needs EXECUTE, MODIFY needs
/// WRITE_DATA, EXTEND needs APPEND_DATA, DELETE needs DELETE_CHILD, and EXECUTE needs EXECUTE. DELETE and LOOKUP are
/// supported for directories, EXECUTE for files, MODIFY and EXTEND for both, READ for every type. ACCESS has no demands
/// in the table: no ACL refuses it.
pub fn rights_of(kind: Kind, asked: u32, grants: u32) -> Rights
    ensures value { result ≡ specs.rights_of kind asked grants }
    ensures exact { specs.RightsAre (has_bit grants) result.supported result.granted }
{
    let supported = asked & meaningful(kind);
    Rights {
        supported,
        granted: granted_rights(supported, grants),
    }
}

/// The supported rights whose permissions are granted.
fn granted_rights(supported: u32, grants: u32) -> u32
    ensures { result ≡ specs.granted_rights supported grants }
{
    let read = right(supported, READ, grants, mask::READ_DATA);
    let lookup = right(supported, LOOKUP, grants, mask::EXECUTE);
    let modify = right(supported, MODIFY, grants, mask::WRITE_DATA);
    let extend = right(supported, EXTEND, grants, mask::APPEND_DATA);
    let delete = right(supported, DELETE, grants, mask::DELETE_CHILD);
    let execute = right(supported, EXECUTE, grants, mask::EXECUTE);
    read | lookup | modify | extend | delete | execute
}

/// The rights that are supported for the type.
fn meaningful(kind: Kind) -> u32
    ensures { result ≡ specs.meaningful kind }
{
    match kind {
        Kind::File => READ | MODIFY | EXTEND | EXECUTE,
        Kind::Directory => READ | LOOKUP | MODIFY | EXTEND | DELETE,
        Kind::Link => READ,
    }
}

/// The right, if it is supported and the permission that it needs is granted; else no right.
fn right(supported: u32, right: u32, grants: u32, bit: u32) -> u32
    ensures { result ≡ specs.right supported right grants bit }
{
    if supported & right != 0 && grants & bit != 0 {
        right
    } else {
        0
    }
}
