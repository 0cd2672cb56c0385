//! Many connections to the file server at once, over streams that become ready at different times.
#![tactic(auto)]

mod ahead;
mod peer;
mod places;
mod serving;
mod streams;

pub use serving::{AllEnd, Limits, serve_all};
pub use streams::{Arrival, Moved, StreamEnd, Streams, Wait};
