//! Tests of `acl_list` and of `acl_shape`.

mod admission;
mod bounds;
mod entries;
mod inheritance;
mod lists;
mod memory;
mod modes;
mod people;
mod permissions;
mod summaries;
mod verdicts;
