//! Tests of `access_guard`.

mod entries;
mod memory;
mod removal;
mod steps;
mod trail;
mod trees;
