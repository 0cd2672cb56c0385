//! Tests of `node_tree`.

mod acting;
mod crowd;
mod examples;
mod fixed;
mod limits;
mod long;
mod memory;
mod plain;
mod steps;
mod turnover;
mod walk;
