//! The limits of a COMPOUND (RFC 8881, sections 2.10.6 and 16.2), in bytes unless another unit is given.

/// The most bytes of a reply without a session, not counting its record mark.
pub const MAX_REPLY: usize = 65_536;

/// The most bytes of a COMPOUND's results in a reply without a session, after the header of the reply.
pub const MAX_RESULTS: usize = MAX_REPLY - 24;

/// The most bytes of a COMPOUND's tag.
pub(crate) const MAX_TAG: usize = 1_024;

/// The one minor version that is supported.
pub(crate) const MINOR_VERSION: u32 = 1;

/// The most operations of a COMPOUND without a session.
pub(crate) const MAX_OPERATIONS: u32 = 16;

/// The least room that an operation runs in: no result of an operation that changes the tree is longer.
pub(crate) const MIN_ROOM: usize = 256;

/// The room that each reply reserves for the result of a refused operation.
pub(crate) const REFUSAL_ROOM: usize = 16;

/// The most bytes of an open-owner.
pub(crate) const MAX_OWNER: usize = 1_024;

/// The bound of all counters: no number, tick, stamp or cookie reaches it.
pub(crate) const MAX_COUNT: u64 = 1 << 63;
