//! Tests of `nfs_types`.

mod forms;
mod growth;
mod object;
mod parts;
mod seen;
mod sent;
mod sets;
mod taken;
