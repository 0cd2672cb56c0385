//! The faults of a text that isn't a book.
ghost use Rattle.std.specs.Prelude.{◌≡◌};
ghost use Rattle.who_book.specs.declared.fault.BookFault.TheVariants.{Memory};

use std::alloc::{AllocError, AllocFailed};
use thiserror::Error;

/// The fault of a text that isn't a book: the first of these over the whole text. A wrong type at the end of the text
/// comes before a number out of range at its beginning. `Memory` may replace any of them, and the book too.
#[derive(Clone, Copy, Debug, PartialEq, Eq, Error)]
pub enum BookFault {
    /// The text isn't TOML.
    #[error("not a TOML document")]
    Text = 1,
    /// A key is missing or unknown, or a value has another type.
    #[error("a key is missing or unknown, or a value has the wrong type")]
    Shape = 2,
    /// A number, a mode, the domain, a name or a table is out of range.
    #[error("a number, the mode, the domain, a name or a table is out of range")]
    Range = 3,
    /// Two names of one table have the same number.
    #[error("two names of one number")]
    Twice = 4,
    /// `members` names a group or a user that the tables don't have, a user twice in one array, or a user in more
    /// than 17 groups.
    #[error("an unknown member, one twice in a group, or one of more than 17 groups")]
    Member = 6,
    /// An allocation fails.
    #[error("out of memory")]
    Memory = 5,
}

impl From<AllocError> for BookFault {
    ghost from_gives = { λ _ fault. fault ≡ Memory };

    fn from(_: AllocError) -> Self {
        BookFault::Memory
    }
}

impl<T: Drop> From<AllocFailed<T>> for BookFault {
    ghost from_gives = { λ _ fault. fault ≡ Memory };

    fn from(_: AllocFailed<T>) -> Self {
        BookFault::Memory
    }
}
