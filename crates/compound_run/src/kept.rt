//! Which calls are logged, to be replayed after a restart (RFC 8881, section 2.10.6.5).
ghost use Rattle.std.specs.Prelude.{◌≡◌, false, if◌then◌else◌, Some, None};
ghost use Rattle.compound_run.specs.AnswerOf.{is_delay_status};
ghost use Rattle.compound_run.specs.Keeping as specs;
ghost use Rattle.compound_run.specs.Delaying.{is_place};

use nfs_ops::{
    OP_CLOSE, OP_CREATE, OP_LINK, OP_OPEN, OP_RECLAIM_COMPLETE, OP_REMOVE, OP_RENAME, OP_SETATTR,
    OP_WRITE,
};
use nfs_types::Status;

/// The facts of an answered call for its record.
#[derive(Clone, Copy, PartialEq, Eq)]
pub struct Ran {
    /// The call is logged. An operation that can change state was OK. Or a client or a session was created, changed or
    /// removed. Or the call took the sequence ID of its slot past a multiple of 2^20.
    pub kept: bool,
    /// The operation whose allocation failed, and which was answered DELAY: its place after SEQUENCE.
    pub delayed: Option<u32>,
}

impl Ran {
    /// The call was refused before it ran, or is a retry.
    pub(crate) fn nothing() -> Self
        ensures { result ≡ record { kept = false; delayed = None } }
    {
        Ran {
            kept: false,
            delayed: None,
        }
    }
}

/// Whether the operation of a number can change state when it is OK.
pub(crate) fn is_changing(number: u32) -> bool
    ensures { result ≡ specs.is_changing number }
{
    number == OP_CLOSE
        || number == OP_CREATE
        || number == OP_LINK
        || number == OP_OPEN
        || number == OP_REMOVE
        || number == OP_RENAME
        || number == OP_SETATTR
        || number == OP_WRITE
        || number == OP_RECLAIM_COMPLETE
}

/// The place of an operation that was refused, if its allocation failed.
pub(crate) fn delayed_at(status: Status, place: u32) -> Option<u32>
    ensures { result ≡ (if is_delay_status status then Some place else None) }
{
    match status {
        Status::Delay => Some(place),
        _ => None,
    }
}

/// Whether the operation whose allocation fails is at this place.
pub(crate) fn is_at(refused: Option<u32>, place: u32) -> bool
    ensures { result ≡ is_place refused place }
{
    match refused {
        Some(at) => at == place,
        None => false,
    }
}
