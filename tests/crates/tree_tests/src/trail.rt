//! Tests of `append_new` of `trail_keeper`: the bytes that are appended, and writers that fail.

mod appended;
mod failing;
mod guards;
