//! The demands of each operation on access control lists (ACLs) (RFC 8881, sections 6.2.1.3 and 18).
#![tactic(auto)]

mod demand;
mod facts;
mod rights;
mod rows;

pub use demand::Demand;
pub use facts::{Clock, First, Object, Second};
pub use rights::{Rights, rights_of};
pub use rows::{entry_demands, first_demands, granted_attributes, second_demands};
