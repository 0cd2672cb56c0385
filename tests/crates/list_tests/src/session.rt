//! Tests of `session_slots`.

mod clients;
mod memory;
mod plain;
mod renewing;
mod restoring;
mod sessions;
mod slots;
mod steps;
