//! The book of names: users and groups by name and by number, and the users of each group. It has the domain and the
//! root's owner, group and mode too.
#![tactic(auto)]

mod book;
mod fault;
mod kind;
mod laws;
mod members;
mod names;
mod outline;
mod principals;
mod rolls;
mod spelling;

pub use book::Book;
pub use fault::BookFault;
pub use kind::NameKind;
pub use laws::{
    names_and_numbers_agree, principal_texts_are_spellings, texts_are_spellings, written_is_read,
};
pub use principals::IDENTIFIER_GROUP;
pub use spelling::Spelling;
