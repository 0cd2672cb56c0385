//! The numbers of a server, in Prometheus' text exposition format.
#![tactic(auto)]

mod metric;
mod metrics;
mod piece;
mod reading;
mod text;

pub use metric::{Kind, Metric};
pub use metrics::{CallCount, Metrics, Usage};
pub use reading::{micros_of, number_of, read_call, read_number, read_seconds, value_of};
pub use text::metrics_text;
