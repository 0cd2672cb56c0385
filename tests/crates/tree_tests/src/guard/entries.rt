//! How ACEs (access control entries), demands and their answers are written.

macro_rules! entry {
    ($kind:ident, $flags:expr, $mask:expr, $who:ident) => {
        acl_list::Entry {
            kind: acl_list::EntryKind::$kind,
            flags: $flags,
            mask: $mask,
            who: acl_list::Who::$who,
        }
    };
}

/// Allows everyone these bits.
macro_rules! allow {
    ($mask:expr) => {
        entry!(Allow, 0, $mask, Everyone)
    };
}

/// Denies everyone these bits.
macro_rules! deny {
    ($mask:expr) => {
        entry!(Deny, 0, $mask, Everyone)
    };
}

/// These bits of an object.
macro_rules! bits {
    ($object:expr, $mask:expr) => {
        access_guard::Demand::Bits {
            object: $object,
            mask: $mask,
        }
    };
}

/// The removal of an object from the root.
macro_rules! removal {
    ($target:expr) => {
        access_guard::Demand::Removal {
            parent: 1,
            target: $target,
        }
    };
}

/// The refusal of these bits of an object.
macro_rules! refused {
    ($object:expr, $mask:expr, $cause:expr) => {
        access_guard::Decision::Refused {
            object: $object,
            mask: $mask,
            cause: $cause,
        }
    };
}

/// The summary of an access control list that grants these bits, and watches none.
macro_rules! sum {
    ($granted:expr) => {
        acl_list::Summary {
            granted: $granted,
            watch_ok: 0,
            watch_fail: 0,
        }
    };
}

pub(crate) use allow;
pub(crate) use bits;
pub(crate) use deny;
pub(crate) use entry;
pub(crate) use refused;
pub(crate) use removal;
pub(crate) use sum;
