//! Why bytes don't encode a value.
use thiserror::Error;

/// The fault of bytes that don't encode a value of a type: the first one from the left (RFC 4506).
#[derive(Clone, Copy, Debug, PartialEq, Eq, Error)]
pub enum XdrFault {
    /// The bytes end inside an item, or inside the padding after it.
    #[error("the bytes end inside an item")]
    Short = 1,
    /// A boolean is neither 0 nor 1 (section 4.4).
    #[error("a boolean is neither 0 nor 1")]
    BadBool = 2,
    /// A padding byte isn't 0 (section 3).
    #[error("padding is not zero")]
    BadPad = 3,
    /// A length or a count is above the type's maximum (sections 4.10 and 4.13).
    #[error("an item is longer than its limit")]
    TooLong = 4,
    /// No arm of a union has the discriminant (section 4.15).
    #[error("no arm of a union has this discriminant")]
    BadChoice = 5,
}
