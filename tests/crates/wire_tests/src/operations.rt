//! Tests of `nfs_ops`, from outside: operations and results by hand, and their limits.

mod lent;
mod listings;
mod plain;
mod results;
mod round_trips;
mod vectors;
