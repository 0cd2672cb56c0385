//! An operation at its place.

use crate::context::Context;
use crate::filehandles::FileHandles;

/// The place at which an operation runs: its context, and the filehandles before it (RFC 8881, section 16.2.3).
#[derive(Clone, Copy)]
pub(crate) struct Step<'t> {
    pub context: Context<'t>,
    pub handles: FileHandles,
}
