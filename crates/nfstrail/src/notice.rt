//! The notices of a trail's file.
use access_guard::Line;

/// The part of a line after its moment.
#[derive(Clone, Copy, PartialEq, Eq)]
pub(crate) enum Notice {
    /// A server started.
    Start,
    /// This number of lines of AUDIT and ALARM ACEs (access control entries) is missing in the file.
    Lost(u64),
    /// A line of the trail.
    Kept(Line),
}

/// A line of the file.
#[derive(Clone, Copy, PartialEq, Eq)]
pub(crate) struct Stamped {
    /// The moment in seconds since 1970-01-01, if the line has one.
    pub(crate) second: Option<u64>,
    pub(crate) notice: Notice,
}
