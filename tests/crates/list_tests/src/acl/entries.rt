//! How access control entries (ACEs) are written.

macro_rules! entry {
    ($kind:ident, $flags:expr, $mask:expr, $who:expr) => {
        acl_list::Entry {
            kind: acl_list::EntryKind::$kind,
            flags: $flags,
            mask: $mask,
            who: $who,
        }
    };
}

macro_rules! allow {
    ($flags:expr, $mask:expr, $who:expr) => {
        entry!(Allow, $flags, $mask, $who)
    };
}

macro_rules! deny {
    ($flags:expr, $mask:expr, $who:expr) => {
        entry!(Deny, $flags, $mask, $who)
    };
}

macro_rules! audit {
    ($flags:expr, $mask:expr, $who:expr) => {
        entry!(Audit, $flags, $mask, $who)
    };
}

/// The access control list of an object after a mode was set on an empty one: the owner's two ACEs, the group's two,
/// everyone's.
macro_rules! five {
    ($owner:expr, $others_of_owner:expr, $group:expr, $others_of_group:expr, $everyone:expr) => {
        [
            allow!(0, $owner, acl_list::Who::Owner),
            deny!(0, $others_of_owner, acl_list::Who::Owner),
            allow!(0, $group, acl_list::Who::Group),
            deny!(0, $others_of_group, acl_list::Who::Group),
            allow!(0, $everyone, acl_list::Who::Everyone),
        ]
    };
}

pub(crate) use allow;
pub(crate) use audit;
pub(crate) use deny;
pub(crate) use entry;
pub(crate) use five;
