//! Decides on demands by the access control lists (ACLs) of objects, remembers summaries of ACLs, and writes the trail
//! (RFC 8881, section 6.2.1).
#![tactic(auto)]

mod asker;
mod deciding;
mod decision;
mod epoch;
mod guard;
mod guarded_tree;
mod laws;
mod line;
mod memory;
mod text;
mod trail;

pub use access_rows::Demand;
pub use decision::{Cause, Decision};
pub use epoch::{FIRST_EPOCH, next_epoch};
pub use guard::Guard;
pub use guarded_tree::GuardedTree;
pub use laws::{
    calls_are_their_look_ups, changes_keep_agreement, misses_are_counted, quiet_hits_count_nothing,
    reloads_keep_agreement,
};
pub use line::{Line, LineKind};
pub use memory::Key;
pub use text::{LineText, MOST_TEXT, write_line};
pub use trail::{MOST_HELD, MOST_KEPT};
