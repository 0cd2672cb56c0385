//! The context of an operation.
ghost use Rattle.std.specs.Prelude.{◌≡◌};
ghost use Rattle.compound_run.specs.Meaning.{too_big_for};

use nfs_types::{Moment, Status};
use rpc_record::Caller;

/// The session whose SEQUENCE the operations follow (RFC 8881, section 18.46).
#[derive(Clone, Copy, PartialEq, Eq)]
pub(crate) struct Calling {
    /// The client of the session.
    pub client: u64,
    /// Whether SEQUENCE asked for the reply to be cached.
    pub keeps_reply: bool,
}

/// The context of an operation.
#[derive(Clone, Copy)]
pub(crate) struct Context<'t> {
    /// The caller, as sent.
    pub caller: &'t Caller,
    pub now: Moment,
    /// Whether times can be set, by the profile.
    pub times: bool,
    /// The session, if any.
    pub calling: Option<Calling>,
    /// The number of operations before it.
    pub position: u32,
    /// The number of operations of its COMPOUND.
    pub count: u32,
    /// The most bytes of its result.
    pub room: usize,
}

impl Context<'_> {
    /// The status of a result that doesn't fit.
    pub fn too_big(self) -> Status
        ensures { result ≡ too_big_for self.entry.calling }
    {
        match self.calling {
            Some(
                Calling {
                    keeps_reply: true,
                    ..
                },
            ) => Status::RepTooBigToCache,
            _ => Status::RepTooBig,
        }
    }
}
