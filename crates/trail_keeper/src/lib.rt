//! Appends the audit trail's new lines to a writer. A call is given the number of lines that were seen, and a keeper
//! counts them.
#![tactic(auto)]

mod appending;
mod date;
mod keeper;
mod laws;
mod moment;
mod piece;

pub use appending::{append_new, append_new_after};
pub use date::Date;
pub use keeper::TrailKeeper;
pub use laws::{each_line_is_appended, each_line_is_kept_once, settling_adds_lines};
pub use moment::moment_text;
pub use piece::MOST_PREFIX;
