//! The values of a document's keys: their types are checked, and their ranges aren't yet.
ghost use Rattle.std.specs.Prelude.{◌≡◌, true, IfOk, IfSome, option_map};
ghost use Rattle.std.specs.List.{list_all};
ghost use Rattle.std.specs.Char.{is_ascii_digit};
ghost use Rattle.toml.specs.View.{table_view};
ghost use Rattle.who_book.specs.Document.{has_known_keys, integers, integers_at, integer_at, text_at, table_at};
ghost use Rattle.who_book.specs.Document.{is_up_to, natural, is_row, is_table, is_in_range, outline};
ghost use Rattle.who_book.specs.Names.{is_word, is_name};
ghost use Rattle.who_book.specs.Document as document;
ghost use Rattle.who_book.specs.Outlines.{rolls_of, rows_of, outline_of, IsAscending, Finds};

use crate::fault::BookFault;
use crate::rolls::{Roll, rolls_at};
use std::alloc::Global;
use toml::Table;

/// The largest number of bytes of a name.
pub const LONGEST_NAME: usize = 64;

/// The largest number of bytes of a domain.
pub const LONGEST_DOMAIN: usize = 128;

/// The largest number of names in a table.
const MOST_NAMES: usize = 1024;

/// All bits of a mode, the largest one.
const GREATEST_MODE: u32 = 0o7777;

/// A name and its integer, as the document has them.
#[derive(Drop)]
pub struct Row<'a> {
    pub name: &'a str,
    pub number: i64,
}

impl Row<'_> {
    /// The number of a row that is in range.
    pub fn number(&self) -> u32
        requires { is_row (self.now.name.now, self.now.number) ≡ true }
        ensures { result ≡ natural self.now.number }
    {
        self.number as u32
    }
}

/// The values of a document's keys.
#[derive(Drop)]
pub struct Outline<'a> {
    pub domain: &'a str,
    pub root_owner: i64,
    pub root_group: i64,
    pub root_mode: i64,
    pub users: Vec<Row<'a>>,
    pub groups: Vec<Row<'a>>,
    pub members: Option<Vec<Roll<'a>>>,
}

impl<'a> Outline<'a> {
    #[tactic(auto, unfolding(crate::specs::Document::outline))]
    /// The values of the keys. `Shape`: a key other than `members` is missing, a key is unknown, or a value has another
    /// type.
    pub fn of(alloc: Global, table: &'a Table) -> Result<Self, BookFault>
        ensures found { Finds outline_of result (outline (table_view table.now)) }
        ensures users_ascend { IfOk result (λ stated. IsAscending (rows_of stated.users.items)) }
        ensures groups_ascend { IfOk result (λ stated. IsAscending (rows_of stated.groups.items)) }
        ensures members_ascend { IfOk result
            (λ stated. IfSome stated.members (λ rolls. IsAscending (rolls_of rolls.items))) }
    {
        if !has_only_known(table) {
            return Err(BookFault::Shape);
        }
        Ok(Outline {
            domain: text_at(table, "domain").ok_or(BookFault::Shape)?,
            root_owner: integer_at(table, "root_owner").ok_or(BookFault::Shape)?,
            root_group: integer_at(table, "root_group").ok_or(BookFault::Shape)?,
            root_mode: integer_at(table, "root_mode").ok_or(BookFault::Shape)?,
            users: rows_at(alloc, table, "users")?,
            groups: rows_at(alloc, table, "groups")?,
            members: rolls_at(alloc, table, "members")?,
        })
    }

    #[tactic(auto, unfolding(crate::specs::Document::is_in_range))]
    /// Whether all numbers, the mode, the domain and both tables are in range.
    pub fn is_in_range(&self) -> bool
        ensures { result ≡ is_in_range (outline_of self.now) }
    {
        (is_word(self.domain, LONGEST_DOMAIN)
            && is_up_to(self.root_owner, u32::MAX)
            && is_up_to(self.root_group, u32::MAX)
            && is_up_to(self.root_mode, GREATEST_MODE))
            && (is_table(self.users.as_slice()) && is_table(self.groups.as_slice()))
    }
}

/// Whether a book may have the key.
fn is_known(key: &str) -> bool
    ensures { result ≡ document.is_known key.now }
{
    matches!(
        key,
        "domain" | "root_owner" | "root_group" | "root_mode" | "users" | "groups" | "members"
    )
}

/// Whether no key is unknown.
fn has_only_known(table: &Table) -> bool
    ensures { result ≡ has_known_keys (table_view table.now) }
{
    for key in table.keys() {
        if !is_known(key.as_str()) {
            return false;
        }
    }
    true
}

fn text_at<'a>(table: &'a Table, key: &str) -> Option<&'a str>
    ensures { option_map (λ text. text.now) result ≡ text_at key.now (table_view table.now) }
{
    match table.get(key) {
        Some(value) => value.as_str(),
        None => None,
    }
}

fn integer_at(table: &Table, key: &str) -> Option<i64>
    ensures { result ≡ integer_at key.now (table_view table.now) }
{
    match table.get(key) {
        Some(value) => value.as_integer(),
        None => None,
    }
}

/// The rows of a table of names, in the order of the names.
fn rows<'a>(alloc: Global, table: &'a Table) -> Result<Vec<Row<'a>>, BookFault>
    ensures found { Finds (λ rows. rows_of rows.items) result (integers (table_view table.now)) }
    ensures ascending { IfOk result (λ rows. IsAscending (rows_of rows.items)) }
{
    let mut rows = Vec::new(alloc);
    for (name, value) in table {
        let Some(number) = value.as_integer() else {
            return Err(BookFault::Shape);
        };
        rows.push(Row {
            name: name.as_str(),
            number,
        })?;
    }
    Ok(rows)
}

fn table_at<'a>(table: &'a Table, key: &str) -> Option<&'a Table>
    ensures { option_map (λ names. table_view names.now) result ≡ table_at key.now (table_view table.now) }
{
    match table.get(key) {
        Some(value) => value.as_table(),
        None => None,
    }
}

fn rows_at<'a>(alloc: Global, table: &'a Table, key: &str) -> Result<Vec<Row<'a>>, BookFault>
    ensures found { Finds (λ rows. rows_of rows.items) result (integers_at key.now (table_view table.now)) }
    ensures ascending { IfOk result (λ rows. IsAscending (rows_of rows.items)) }
{
    match table_at(table, key) {
        Some(names) => rows(alloc, names),
        None => Err(BookFault::Shape),
    }
}

/// Whether an integer is from 0 to the limit.
fn is_up_to(integer: i64, limit: u32) -> bool
    ensures { result ≡ is_up_to limit integer }
{
    (0..=i64::from(limit)).contains(&integer)
}

/// Whether a text is not empty, and has at most `most` bytes and no `@`.
fn is_word(text: &str, most: usize) -> bool
    ensures { result ≡ is_word most text.now }
{
    !text.is_empty() && text.len() <= most && !text.as_bytes().contains(&b'@')
}

fn is_digits(text: &[u8]) -> bool
    ensures { result ≡ list_all is_ascii_digit text.now }
{
    text.iter().all(|byte| byte.is_ascii_digit())
}

/// Whether a text can be a name: digits alone would be a number.
fn is_name(text: &str) -> bool
    ensures { result ≡ is_name text.now }
{
    is_word(text, LONGEST_NAME) && !is_digits(text.as_bytes())
}

fn is_row(row: &Row<'_>) -> bool
    ensures { result ≡ is_row (row.now.name.now, row.now.number) }
{
    is_name(row.name) && is_up_to(row.number, u32::MAX)
}

fn are_rows(rows: &[Row<'_>]) -> bool
    ensures { result ≡ list_all (λ row. is_row (row.name.now, row.number)) rows.now }
{
    rows.iter().all(is_row)
}

fn is_table(rows: &[Row<'_>]) -> bool
    ensures { result ≡ is_table (rows_of rows.now) }
{
    rows.len() <= MOST_NAMES && are_rows(rows)
}

/// The number that an integer from 0 to 4294967295 is.
pub fn to_number(integer: i64) -> u32
    requires { is_up_to 4294967295 integer ≡ true }
    ensures { result ≡ natural integer }
{
    integer as u32
}
