//! The two tables of names.

/// The table that a name is in.
#[derive(Clone, Copy, Debug, PartialEq, Eq)]
pub enum NameKind {
    /// The names of users.
    User,
    /// The names of groups.
    Group,
}
