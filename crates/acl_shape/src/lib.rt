//! Makes the access control list (ACL) of an object from a mode, from its directory's ACL, and from a request (RFC
//! 8881, sections 6.3.2 and 6.4).
#![tactic(auto)]

mod admitting;
mod bounds;
mod combining;
mod inheriting;
mod laws;
mod modes;
mod part;
mod permissions;
mod request;

pub use admitting::{admit, admit_part};
pub use bounds::{MAX_ENTRIES, MAX_KEPT, is_bounded};
pub use combining::{CombineFault, combine, with_parts};
pub use inheriting::inherit;
pub use laws::{
    bounds_are_kept, mode_again_is_same, mode_gives_class_bits, mode_is_read_back,
    parts_are_read_back,
};
pub use modes::{mode_of, set_mode};
pub use part::Part;
pub use permissions::{Given, Permissions, changed_permissions, created_permissions};
pub use request::{AdmitFault, Raw};
