//! PUTROOTFH: moves to the root (RFC 8881, section 18.21). It has no arguments, and no result after its status.

/// The number of PUTROOTFH.
pub const OP_PUTROOTFH: u32 = 24;
