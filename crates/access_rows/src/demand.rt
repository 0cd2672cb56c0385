//! The demands of operations on access control lists (ACLs).

/// Access that the ACLs of objects have to grant before an operation may continue.
#[derive(Clone, Copy, Debug, PartialEq, Eq)]
pub enum Demand {
    /// Each of these permissions, by the object's ACL (RFC 8881, section 6.2.1.3). The mask 0 demands nothing.
    Bits {
        /// The number of the object.
        object: u64,
        /// Any bits of the mask of an access control entry (ACE).
        mask: u32,
    },
    /// The removal of a name of the target from the parent: DELETE on the target or DELETE_CHILD on the parent
    /// (RFC 8881, section 6.2.1.3.2).
    Removal {
        /// The number of the directory that loses a name.
        parent: u64,
        /// The number of the object that has the name.
        target: u64,
    },
    /// A time is set to the server's own: WRITE_ATTRIBUTES or WRITE_DATA (RFC 8881, section 6.2.1.3.1).
    ServerTime {
        /// The number of the object.
        object: u64,
    },
}
