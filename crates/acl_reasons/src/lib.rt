//! Why access control lists (ACLs) grant or refuse a mask (RFC 8881, section 6.2.1) and a removal (section 6.2.1.3.2).
#![tactic(auto)]

mod applicability;
mod laws;
mod reason;
mod removal;
mod share;

pub use applicability::{Applicability, applicability_of};
pub use laws::shares_are_the_verdict;
pub use reason::{Reason, why};
pub use removal::{Governed, RemovalReason, why_removal};
pub use share::{Share, share_of};
