//! The text of an access control entry (ACE) by a book, which gives users and groups their names.
ghost use Rattle.std.specs.Prelude.{◌≡◌, ◌<◌};
ghost use Rattle.acl_words.specs.Entries.{entry_in, entry_text, named_in, principal_in};

use crate::field::Field;
use crate::text::Text;
use crate::words::Words;
use acl_list::{Entry, Kind, Who};
use who_book::{Book, NameKind};

/// The principal with a name of the book, without its domain: a group under IDENTIFIER_GROUP, else a user.
#[tactic(auto, unfolding(crate::specs::Entries::named_in))]
fn named_in(book: &Book, flags: u32, name: &[u8]) -> Option<Who>
    ensures { result ≡ named_in flags book.now name.now }
{
    let kind = NameKind::of_flags(flags);
    let number = book.number_of(kind, name)?;
    Some(match kind {
        NameKind::User => Who::User(number),
        NameKind::Group => Who::GroupOf(number),
    })
}

/// The principal of a text.
fn principal_in(book: &Book, flags: u32, text: &[u8]) -> Option<Who>
    ensures { result ≡ principal_in flags book.now text.now }
{
    match book.who(flags, text) {
        Some(who) => Some(who),
        None => named_in(book, flags, text),
    }
}

/// Reads an ACE, for an object of this type: on a directory, the alias `W` includes `D`.
///
/// The text has the form that [`Words::read`] accepts. Its principal is `OWNER@`, `GROUP@`, `EVERYONE@`, a name of the
/// book, or decimal digits without leading zeros. A name may have `@` and the book's domain after it. A name or digits
/// mean a group with flag `g`, else a user. `Err` has the first field that can't be read; the principal is checked
/// last.
pub fn read_entry(book: &Book, object: Kind, text: &[u8]) -> Result<Entry, Field>
    ensures { result ≡ entry_in object book.now text.now }
{
    let words = match Words::read(object, text) {
        Ok(words) => words,
        Err(field) => return Err(field),
    };
    let flags = u32::from(words.flags);
    match principal_in(book, flags, words.who) {
        Some(who) => Ok(Entry {
            kind: words.kind,
            flags,
            mask: words.mask,
            who,
        }),
        None => Err(Field::Principal),
    }
}

/// Writes an ACE: in letters if they express it, else in the hexadecimal form. A user or group is written by its name
/// with `@` and the domain if the book has one, else in digits. The text is read as this ACE:
/// [`crate::entries_are_read_again`]. The function allocates nothing.
pub fn write_entry(book: &Book, entry: &Entry) -> Text
    requires { entry.now.flags < 256 }
    ensures { result ≡ entry_text book.now entry.now }
{
    let who = book.spell_ace_principal(entry.who);
    let words = Words {
        kind: entry.kind,
        flags: entry.flags as u8,
        mask: entry.mask,
        who: who.as_bytes(),
    };
    words.to_text()
}
