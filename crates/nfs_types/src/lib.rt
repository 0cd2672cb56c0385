//! The types that all operations of NFS version 4.1 share: statuses, filehandles, stateids, attributes, times and names
//! (RFC 8881).
#![tactic(auto)]

mod ace;
mod aces;
mod acl;
mod acl41;
mod asked;
mod attribute;
mod attributes;
mod attrs;
mod bitmap;
mod client_attributes;
mod filled;
mod given;
mod handle;
mod laws;
mod limits;
mod moment;
mod name;
mod parts;
mod seen;
mod sent;
mod set_time;
mod stateid;
mod status;

pub use ace::Ace;
pub use aces::Aces;
pub use acl41::Acl41;
pub use attribute::{
    Attribute, ObjectFacts, READ_BY_ACL, READ_BY_ATTRIBUTES, SET_BY_ACL, SET_BY_OWNER,
};
pub use attributes::Attributes;
pub use attrs::{Attrs, AttrsFault, read_attrs};
pub use bitmap::Bitmap;
pub use client_attributes::{ClientAttributes, write_given};
pub use given::GivenAttributes;
pub use handle::Handle;
pub use laws::{given_is_asked_and_supported, sets_are_the_table, written_is_seen};
pub use limits::Limits;
pub use moment::Moment;
pub use name::{MAX_NAME, check_name};
pub use seen::{SeenAttributes, read_given};
pub use sent::read_chosen;
pub use set_time::{SentTime, SetTime};
pub use stateid::StateId;
pub use status::Status;
