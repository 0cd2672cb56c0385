//! LOOKUPP: moves from the current directory to its parent (RFC 8881, section 18.14). It has no arguments, and no
//! result after its status.

/// The number of LOOKUPP.
pub const OP_LOOKUPP: u32 = 16;
