//! The limits of sessions and slots that no profile sets.

/// The most slots of a session.
pub const MOST_SLOTS: u32 = 8;

/// The most bytes of a request, and of a reply.
pub const MOST_BYTES: u32 = 65_536;

/// The fewest bytes of a reply that a client may request.
pub const LEAST_REPLY: u32 = 4096;

/// The bytes of the header of a reply to a COMPOUND, which isn't cached.
pub const REPLY_HEADER: usize = 24;

/// The most bytes of results that are cached.
pub const MOST_RESULTS: usize = 65_512;

/// The most operations of a COMPOUND.
pub const MOST_OPERATIONS: u32 = 16;

/// How far a new call may be ahead of the last one of a slot that lags.
pub const MOST_AHEAD: u32 = 1 << 20;

/// The most bytes of a client owner's ID, NFS4_OPAQUE_LIMIT (RFC 8881, section 3.1).
pub const MOST_OWNER: usize = 1024;

/// No client and no session has this number.
pub const END: u64 = 1 << 63;

/// The server is no pNFS server, EXCHGID4_FLAG_USE_NON_PNFS (RFC 8881, section 18.35).
pub const USE_NON_PNFS: u32 = 0x1_0000;

/// A confirmed record is to be updated, EXCHGID4_FLAG_UPD_CONFIRMED_REC_A (RFC 8881, section 18.35).
pub const UPDATE_CONFIRMED: u32 = 0x4000_0000;

/// The record is confirmed, EXCHGID4_FLAG_CONFIRMED_R (RFC 8881, section 18.35).
pub const CONFIRMED: u32 = 0x8000_0000;
