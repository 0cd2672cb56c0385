//! The decision on a demand.
ghost use Rattle.std.specs.Prelude.{◌≡◌};
ghost use Rattle.access_guard.specs.Decisions as specs;

use acl_list::Verdict;

/// The cause of a refusal, or of a line: an access control entry (ACE), or a mask bit that no ACE allows.
#[derive(Clone, Copy, Debug, PartialEq, Eq)]
pub enum Cause {
    /// The ACE at this index of the access control list (ACL), counted from 0.
    ByEntry(usize),
    /// No ACE allows this bit, given as a mask. 0: the object doesn't exist.
    Missing(u32),
}

/// Whether the ACLs grant a demand.
#[derive(Clone, Copy, Debug, PartialEq, Eq)]
pub enum Decision {
    /// The ACLs grant the demand.
    Granted,
    /// The ACLs refuse the demand.
    Refused {
        /// The object whose ACL refuses it.
        object: u64,
        /// The bits demanded of that object: the whole mask of the demand, also the bits that the ACL grants. Of a
        /// removal it is DELETE_CHILD, DELETE or ADD_FILE.
        mask: u32,
        /// The first ACE that denies a bit of it, else the lowest bit that no ACE allows.
        cause: Cause,
    },
}

impl Decision {
    /// Whether the ACLs grant the demand.
    pub fn is_granted(self) -> bool
        ensures { result ≡ specs.is_granted self }
    {
        matches!(self, Decision::Granted)
    }
}

/// The decision by a verdict on bits of one object.
pub(crate) fn answer(object: u64, mask: u32, verdict: Verdict) -> Decision
    ensures { result ≡ specs.answer object mask verdict }
{
    let cause = match verdict {
        Verdict::Granted => return Decision::Granted,
        Verdict::Denied(index) => Cause::ByEntry(index),
        Verdict::Missing(bit) => Cause::Missing(bit),
    };
    Decision::Refused {
        object,
        mask,
        cause,
    }
}
