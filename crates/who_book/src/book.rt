//! The book of names: its content, and how it is read.
ghost use Rattle.std.specs.Prelude.{◌≡◌, Ok, IfOk, IfSome, true, option_map, codes};
ghost use Rattle.toml.specs.Parse.{parse_document};
ghost use Rattle.toml.specs.View.{table_view};
ghost use Rattle.who_book.specs.Content.{IsBook, nameless, table_of};
ghost use Rattle.who_book.specs.Document.{Answers, AnswersFrom, Parses, Fills, book_from, book_of, filled};
ghost use Rattle.who_book.specs.Document.{is_in_range, is_up_to, natural};
ghost use Rattle.who_book.specs.Members.{member};
ghost use Rattle.who_book.specs.Names.{name_at, number_at};
ghost use Rattle.who_book.specs.Outlines.{outline_of, rows_of, rolls_of, IsAscending};
ghost use Rattle.who_book.specs.declared.fault.BookFault.TheVariants.{Text};

use crate::fault::BookFault;
use crate::kind::NameKind;
use crate::members::{Members, gid_among};
use crate::names::Names;
use crate::outline::{Outline, to_number};
use rpc_record::Caller;
use std::alloc::Global;
use std::marker::Model;
use toml::Table;

/// The domain of a server without a book.
const LOCAL: &str = "localdomain";

/// A book of names: users and groups by name and by number, the domain of the names, and the root's owner, group and
/// mode. If the text has the key `members`, the book has the users of each group too.
#[derive(Drop)]
pub struct Book {
    /// `None` is `localdomain`, which spares a server without a book the allocation.
    domain: Option<String>,
    root_owner: u32,
    root_group: u32,
    root_mode: u32,
    users: Names,
    groups: Names,
    members: Option<Members>,
    /// The text that the book was read from. `None`: the book without a file.
    text: Option<String>,
}

impl Model for Book {
    ghost use Rattle.who_book.specs.Content.{Content};

    ghost Value = { Content };

    ghost use Rattle.who_book.specs.Content.{IsBook};
    ghost use Rattle.who_book.specs.Books.{content_in, text_in};
    ghost use Rattle.who_book.specs.Document.{book_from};
    ghost use Rattle.std.specs.Prelude.{◌≡◌, Ok};
    ghost use Rattle.who_book.specs.Indexes.{KnowsMembers};

    ghost view = { content_in };

    ghost invariant = { λ b. record {
      book : IsBook (content_in b);
      members : KnowsMembers b.users b.members;
      text : book_from (text_in b) ≡ Ok (content_in b);
    } };
}

impl Book {
    /// The book without a file. The domain is `localdomain`, no number has a name, and the root's owner is 0, its group
    /// 0 and its mode 0o755. The function allocates nothing; the allocator is that of the empty tables.
    pub fn default(alloc: Global) -> Self
        ensures content { result ≡ nameless }
        ensures book { IsBook result }
    {
        Book {
            domain: None,
            root_owner: 0,
            root_group: 0,
            root_mode: 0o755,
            users: Names::new(alloc),
            groups: Names::new(alloc),
            members: None,
            text: None,
        }
    }

    /// The book of a text, as [`Book::read`] reads it; without a text, the default book.
    pub fn from_text(alloc: Global, text: Option<&str>) -> Result<Book, BookFault>
        ensures answer { AnswersFrom (option_map (λ t. t.now) text.entry) result }
        ensures book { IfOk result IsBook }
    {
        match text {
            Some(text) => Book::read(alloc, text),
            None => Ok(Book::default(alloc)),
        }
    }

    /// The text that the book was read from. `None`: it is the book without a file.
    pub fn text(&self) -> Option<&str>
        ensures { book_from (option_map (λ text. text.now) result) ≡ Ok self.now }
    {
        self.text.as_deref()
    }

    /// Reads a book from TOML. The text must have all of the keys `domain` (a text), `root_owner`, `root_group` and
    /// `root_mode` (integers), `users` and `groups` (tables of names to integers). It may have `members` (a table of
    /// names of groups to arrays of names of users). It has no other key.
    ///
    /// Numbers are from 0 to 4294967295, and modes from 0 to 0o7777. The domain has 1 to 128 bytes of UTF-8 and a name
    /// 1 to 64, both without `@`. A name isn't ASCII digits alone. A table has at most 1,024 names, with a different
    /// number each. `members` names only groups and users of the two tables, no user twice in one array, and no user in
    /// more than 17 groups. The fault is the first in the order of `BookFault`, over the whole text.
    pub fn read(alloc: Global, text: &str) -> Result<Book, BookFault>
        ensures answer { Answers text.now result }
        ensures book { IfOk result IsBook }
        ensures text { result ≡ Err Text → parse_document text.now ≡ None }
    {
        let table = parse(alloc, text)?;
        let outline = Outline::of(alloc, &table)?;
        if !outline.is_in_range() {
            return Err(BookFault::Range);
        }
        Book::fill(alloc, &outline, text)
    }

    /// The book of a text whose values are in range. `Twice`: two names of a table have the same number. Else `Member`:
    /// `members` doesn't agree with the tables.
    fn fill(alloc: Global, outline: &Outline<'_>, text: &str) -> Result<Book, BookFault>
        requires text { book_of text.now ≡ filled (outline_of outline.now) }
        requires in_range { is_in_range (outline_of outline.now) ≡ true }
        requires users_ascend { IsAscending (rows_of outline.now.users.items) }
        requires groups_ascend { IsAscending (rows_of outline.now.groups.items) }
        requires members_ascend { IfSome outline.now.members (λ rolls. IsAscending (rolls_of rolls.items)) }
        ensures answer { Fills (outline_of outline.now) result }
        ensures book { IfOk result IsBook }
    {
        let domain = String::from_str(alloc, outline.domain)?;
        let users = Names::build(alloc, outline.users.as_slice())?;
        let groups = Names::build(alloc, outline.groups.as_slice())?;
        let members = Members::of(alloc, &users, &groups, &outline.members)?;
        let text = String::from_str(alloc, text)?;
        Ok(Book {
            domain: Some(domain),
            root_owner: to_number(outline.root_owner),
            root_group: to_number(outline.root_group),
            root_mode: to_number(outline.root_mode),
            users,
            groups,
            members,
            text: Some(text),
        })
    }

    /// The domain of the names.
    pub fn domain(&self) -> &str
        ensures domain { result.now ≡ self.now.domain }
        ensures book { IsBook self.now }
    {
        match &self.domain {
            Some(domain) => domain.as_str(),
            None => LOCAL,
        }
    }

    /// The number of the root's owner.
    pub fn root_owner(&self) -> u32
        ensures { result ≡ self.now.root_owner }
    {
        self.root_owner
    }

    /// The number of the root's group.
    pub fn root_group(&self) -> u32
        ensures { result ≡ self.now.root_group }
    {
        self.root_group
    }

    /// The mode of the root, at most 0o7777.
    pub fn root_mode(&self) -> u32
        ensures mode { result ≡ self.now.root_mode }
        ensures book { IsBook self.now }
    {
        self.root_mode
    }

    /// The name with this number. `None`: the table of this kind has no name for it.
    pub fn name_of(&self, kind: NameKind, number: u32) -> Option<&str>
        ensures name { option_map (λ name. name.now) result ≡ name_at number (table_of kind self.now) }
        ensures book { IsBook self.now }
    {
        match kind {
            NameKind::User => self.users.name_of(number),
            NameKind::Group => self.groups.name_of(number),
        }
    }

    /// The number of a name, by its exact bytes. `None`: the table of this kind doesn't have the name.
    pub fn number_of(&self, kind: NameKind, name: &[u8]) -> Option<u32>
        ensures number { result ≡ number_at name.now (table_of kind self.now) }
        ensures book { IsBook self.now }
    {
        match kind {
            NameKind::User => self.users.number_of(name),
            NameKind::Group => self.groups.number_of(name),
        }
    }

    /// The caller with its groups by the book. If the book has `members`, the caller's groups are those whose array has
    /// the name of its user. They replace the groups that it sent; a user without a name is in none. Its gid is the gid
    /// that it sent if that is among these groups, else the least of them, else 65534. The gid 65534 then makes it a
    /// member of no group. Without `members` the result is the caller as sent. The function allocates nothing.
    pub fn member(&self, caller: &Caller) -> Caller
        ensures { result ≡ member self.now caller.now }
    {
        let Some(members) = &self.members else {
            return *caller;
        };
        let groups = members.groups_of(caller.uid());
        let gid = gid_among(&groups, caller.gid());
        Caller::with_groups(caller.uid(), gid, groups)
    }
}

/// Parses a text as a TOML document. No other function calls the parser.
fn parse(alloc: Global, text: &str) -> Result<Table, BookFault>
    ensures { Parses table_view text.now result }
{
    match toml::table_from_str(alloc, text) {
        Ok(table) => Ok(table),
        Err(error) if error.is_memory() => Err(BookFault::Memory),
        Err(_) => Err(BookFault::Text),
    }
}
