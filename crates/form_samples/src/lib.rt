//! Samples of user-defined XDR forms, one of each shape: a struct, unions, a chain, an array with a normal form. The
//! crate also has samples of names for READDIR, and a law of statuses.
#![tactic(auto)]

mod bitmap;
mod channel;
mod children;
mod claim;
mod listing;
mod refusals;

pub use bitmap::Bitmap;
pub use channel::Channel;
pub use children::{Child, Children};
pub use claim::{Claim, Mark, Stable};
pub use listing::{Entry, Listing};
pub use refusals::every_refusal_is_read;
