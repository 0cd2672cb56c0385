//! The numbers of a server.

/// How many there are of something, and the most that there may be.
#[derive(Clone, Copy, PartialEq, Eq)]
pub struct Usage {
    /// How many there are now.
    pub used: u64,
    /// The most that there may be at a time.
    pub limit: u64,
}

/// How many calls of an operation ended with a status, since the server started.
#[derive(Clone, Copy, PartialEq, Eq)]
pub struct CallCount<'a> {
    /// The name of the operation, as `READ`.
    pub operation: &'a str,
    /// The name of the status, as `OK`.
    pub status: &'a str,
    /// The number of calls.
    pub count: u64,
}

/// The numbers of a server. Counters begin with 0 when it starts.
#[derive(Clone, Copy, PartialEq, Eq)]
pub struct Metrics<'a> {
    /// The version of the server.
    pub version: &'a str,
    /// When the server started: the seconds since 1970 in UTC.
    pub start_time: u64,
    /// The connections.
    pub connections: Usage,
    /// The clients that the server knows.
    pub clients: Usage,
    /// The sessions of clients.
    pub sessions: Usage,
    /// The opens that clients have.
    pub opens: Usage,
    /// The objects of the store.
    pub objects: Usage,
    /// The bytes of all files.
    pub content: u64,
    /// The most bytes that all files may have. `None`: there is no limit.
    pub capacity: Option<u64>,
    /// The calls, by operation and status. Each pair of an operation and a status is here once at most.
    pub calls: &'a [CallCount<'a>],
    /// The operations that an ACL (access control list) refused.
    pub acl_refusals: u64,
    /// The bytes that READ gave.
    pub read_bytes: u64,
    /// The bytes that WRITE took.
    pub written_bytes: u64,
    /// The times that the store's file was synced.
    pub syncs: u64,
    /// How long the slowest sync took, in microseconds.
    pub slowest_sync: u64,
    /// The generation of the store: it grows by one with each checkpoint.
    pub generation: u64,
    /// The bytes of the store's active file: the last checkpoint and the calls after it.
    pub log_bytes: u64,
    /// The seconds since the last checkpoint.
    pub checkpoint_age: u64,
    /// Whether the store is full, so that the server refuses changes.
    pub is_full: bool,
    /// The epoch of the book of names: it grows by one each time that another book is loaded.
    pub book_epoch: u64,
}
