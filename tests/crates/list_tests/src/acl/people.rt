//! The callers.

use rpc_record::{Caller, MOST_FURTHER};

/// The owner of the object, and its group.
pub const OWNER: u32 = 1001;

pub const GROUP: u32 = 100;

/// The caller.
#[derive(Clone, Copy, Debug, PartialEq, Eq)]
pub enum Person {
    /// The owner, and no member of the group.
    Alice,
    /// The owner, and a member of the group.
    AliceInside,
    /// A member of the group by the gid.
    Bob,
    /// A member of the group by a further gid.
    Carol,
    /// Neither the owner nor a member.
    Dave,
}

/// The caller of a credential, with no contract, so that the prover doesn't compute on its groups.
fn caller_of(uid: u32, gid: u32, further: &[u32]) -> Caller {
    let most = further.len().min(MOST_FURTHER);
    Caller::new(uid, gid, &further[..most])
}

impl Person {
    pub fn caller(self) -> Caller {
        match self {
            Person::Alice => caller_of(1001, 7, &[]),
            Person::AliceInside => caller_of(1001, 100, &[]),
            Person::Bob => caller_of(1002, 100, &[]),
            Person::Carol => caller_of(1004, 7, &[200, 100]),
            Person::Dave => caller_of(1003, 7, &[]),
        }
    }
}
