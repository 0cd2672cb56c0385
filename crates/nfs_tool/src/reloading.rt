//! Loading another book of names into a hub.
ghost use Rattle.std.specs.Prelude.{◌≡◌};
ghost use Rattle.nfs_tool.specs.Reloading.{BookGives, Loads, lent};

use nfs_hub::Hub;
use std::alloc::{Allocator, Global};
use who_book::{Book, BookFault};

/// Texts by their names, for example of files.
pub trait Texts {
    ghost use Rattle.std.specs.Prelude.{ℕ, List, Option, option_map, string_bytes};

    // The relation of the texts before, a name, its text or none, and the texts after. The default relates all.
    ghost text_gives: { Self → List ℕ → Option (List ℕ) → Self → Type 0 } = { λ _ _ _ _. Unit {0} };

    /// The text of a name. `None`: the name has no text, or its text can't be read.
    fn text(&mut self, name: &str) -> Option<String>
        ensures { text_gives self.old name.now (option_map string_bytes result) self.new };
}

/// Why another book isn't loaded.
#[derive(Clone, Copy, Debug)]
pub(crate) enum LoadFault {
    /// The name has no text.
    NoText,
    /// The text isn't a book.
    NoBook(BookFault),
    /// No epoch of a book is left.
    Exhausted,
}

/// The book in the text of a name.
fn read_book<T: Texts>(global: Global, texts: &mut T, name: &str) -> Result<Book, LoadFault>
    ensures { BookGives T.text_gives name.now texts.old texts.new result }
{
    let Some(text) = texts.text(name) else {
        return Err(LoadFault::NoText);
    };
    match Book::read(global, text.as_str()) {
        Ok(book) => Ok(book),
        Err(fault) => Err(LoadFault::NoBook(fault)),
    }
}

/// Loads the book in the text of a name.
pub(crate) fn load<A: Allocator + Copy, T: Texts>(
    global: Global,
    hub: &mut Hub<A>,
    texts: &mut T,
    name: &str,
) -> Result<(), LoadFault>
    ensures { Loads T.text_gives name.now (lent hub.old texts.old) (lent hub.new texts.new) result }
{
    let book = match read_book(global, texts, name) {
        Ok(book) => book,
        Err(fault) => return Err(fault),
    };
    match hub.reload(book) {
        Ok(_) => Ok(()),
        Err(_) => Err(LoadFault::Exhausted),
    }
}
