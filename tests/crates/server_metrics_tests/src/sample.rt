//! A server whose numbers all differ.
use server_metrics::{CallCount, Metrics, Usage};

/// Calls of two operations.
static CALLS: [CallCount<'static>; 3] = [
    CallCount {
        operation: "GETATTR",
        status: "NFS4_OK",
        count: 18_446_744_073_709_551_615,
    },
    CallCount {
        operation: "READ",
        status: "NFS4_OK",
        count: 41,
    },
    CallCount {
        operation: "READ",
        status: "NFS4ERR_ACCESS",
        count: 0,
    },
];

/// The calls of the server.
pub(crate) fn calls() -> &'static [CallCount<'static>] {
    &CALLS
}

fn usage(used: u64, limit: u64) -> Usage {
    Usage { used, limit }
}

/// A server with these calls, and this limit of the bytes of all files.
pub(crate) fn server<'a>(calls: &'a [CallCount<'a>], capacity: Option<u64>) -> Metrics<'a> {
    Metrics {
        version: "0.9",
        start_time: 1_795_638_435,
        connections: usage(3, 16),
        clients: usage(2, 64),
        sessions: usage(5, 65),
        opens: usage(10, 4096),
        objects: usage(12_000, 16_384),
        content: 1_073_741_825,
        capacity,
        calls,
        acl_refusals: 7,
        read_bytes: 8_000_000,
        written_bytes: 9_000_000,
        syncs: 120,
        slowest_sync: 1_000_250,
        generation: 13,
        log_bytes: 1_400_000,
        checkpoint_age: 35,
        is_full: true,
        book_epoch: 4,
    }
}
