//! The permissions of a mask, and their names (RFC 8881, section 6.2.1.3.1).
ghost use Rattle.std.specs.Prelude.{◌≡◌, is_some, option_map};
ghost use Rattle.acl_words.specs.Rights as specs;

use acl_list::{Kind, mask};

/// The permissions, in the order of their bits.
pub const RIGHTS: [u32; 16] = [
    mask::READ_DATA,
    mask::WRITE_DATA,
    mask::APPEND_DATA,
    mask::READ_NAMED_ATTRS,
    mask::WRITE_NAMED_ATTRS,
    mask::EXECUTE,
    mask::DELETE_CHILD,
    mask::READ_ATTRIBUTES,
    mask::WRITE_ATTRIBUTES,
    mask::WRITE_RETENTION,
    mask::WRITE_RETENTION_HOLD,
    mask::DELETE,
    mask::READ_ACL,
    mask::WRITE_ACL,
    mask::WRITE_OWNER,
    mask::SYNCHRONIZE,
];

/// The name of a permission on an object of this type. `None`: it isn't one of [`RIGHTS`].
pub fn right_name(object: Kind, right: u32) -> Option<&'static str>
    ensures name { option_map (λ name. name.now) result ≡ specs.right_name object right }
    ensures named { is_some result ≡ specs.is_right right }
    ensures rights { RIGHTS ≡ specs.rights }
{
    match (object, right) {
        (Kind::Directory, mask::LIST_DIRECTORY) => Some("list-directory"),
        (Kind::Directory, mask::ADD_FILE) => Some("add-file"),
        (Kind::Directory, mask::ADD_SUBDIRECTORY) => Some("add-subdirectory"),
        (_, mask::READ_DATA) => Some("read-data"),
        (_, mask::WRITE_DATA) => Some("write-data"),
        (_, mask::APPEND_DATA) => Some("append-data"),
        (_, mask::READ_NAMED_ATTRS) => Some("read-named-attrs"),
        (_, mask::WRITE_NAMED_ATTRS) => Some("write-named-attrs"),
        (_, mask::EXECUTE) => Some("execute"),
        (_, mask::DELETE_CHILD) => Some("delete-child"),
        (_, mask::READ_ATTRIBUTES) => Some("read-attributes"),
        (_, mask::WRITE_ATTRIBUTES) => Some("write-attributes"),
        (_, mask::WRITE_RETENTION) => Some("write-retention"),
        (_, mask::WRITE_RETENTION_HOLD) => Some("write-retention-hold"),
        (_, mask::DELETE) => Some("delete"),
        (_, mask::READ_ACL) => Some("read-acl"),
        (_, mask::WRITE_ACL) => Some("write-acl"),
        (_, mask::WRITE_OWNER) => Some("write-owner"),
        (_, mask::SYNCHRONIZE) => Some("synchronize"),
        _ => None,
    }
}
