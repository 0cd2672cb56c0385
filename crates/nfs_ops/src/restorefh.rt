//! RESTOREFH: moves to the saved object (RFC 8881, section 18.27). It has no arguments, and no result after its status.

/// The number of RESTOREFH.
pub const OP_RESTOREFH: u32 = 31;
