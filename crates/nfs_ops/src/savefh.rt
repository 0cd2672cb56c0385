//! SAVEFH: saves the current object (RFC 8881, section 18.28). It has no arguments, and no result after its status.

/// The number of SAVEFH.
pub const OP_SAVEFH: u32 = 32;
