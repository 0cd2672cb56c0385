//! Numbers, modes, domains and names that are out of range, and numbers with two names.
ghost use Rattle.std.specs.Prelude.{◌≡◌, ◌&&◌, codes, IfOk, option_map};
ghost use Rattle.std.specs.Char.{is_ascii_digit};
ghost use Rattle.std.specs.List.{list_all};
ghost use Rattle.toml.specs.View.{table_view};
ghost use Rattle.who_book.specs.Document.{is_up_to, text_at, integer_at};
ghost use Rattle.who_book.specs.Names.{is_word, is_name};
ghost use Rattle.book_words.specs.Ranges.{Reports, is_right_number, is_right_domain, are_right_settings};

use std::alloc::{AllocError, Global};
use toml::Table;

/// The greatest number of a user or a group.
const GREATEST: u32 = 4_294_967_295;

/// The greatest mode.
const GREATEST_MODE: u32 = 0o7777;

/// The largest number of names in a table.
const MOST_NAMES: usize = 1024;

/// The largest numbers of bytes of a domain and of a name.
const LONGEST_DOMAIN: usize = 128;

const LONGEST_NAME: usize = 64;

/// Explains what is out of range in a table of the right shape. `None`: nothing is.
pub(crate) fn range(alloc: Global, table: &Table) -> Result<Option<String>, AllocError> {
    if let Some(words) = domain(alloc, table)? {
        return Ok(Some(words));
    }
    if let Some(words) = settings(alloc, table)? {
        return Ok(Some(words));
    }
    if let Some(words) = rows(alloc, table, "users")? {
        return Ok(Some(words));
    }
    rows(alloc, table, "groups")
}

/// The table of names of a key.
pub(crate) fn names_at<'a>(table: &'a Table, key: &str) -> Option<&'a Table> {
    match table.get(key) {
        Some(value) => value.as_table(),
        None => None,
    }
}

fn integer_at(table: &Table, key: &str) -> Option<i64>
    ensures { result ≡ integer_at key.now (table_view table.now) }
{
    match table.get(key) {
        Some(value) => value.as_integer(),
        None => None,
    }
}

/// The text of a key.
fn text_at<'a>(table: &'a Table, key: &str) -> Option<&'a str>
    ensures { option_map (λ text. text.now) result ≡ text_at key.now (table_view table.now) }
{
    match table.get(key) {
        Some(value) => value.as_str(),
        None => None,
    }
}

/// Whether an integer is from 0 to the limit.
fn is_up_to(integer: i64, limit: u32) -> bool
    ensures { result ≡ is_up_to limit integer }
{
    (0..=i64::from(limit)).contains(&integer)
}

/// Whether a text has 1 to `most` bytes and no `@`.
fn is_word(text: &str, most: usize) -> bool
    ensures { result ≡ is_word most text.now }
{
    !text.is_empty() && text.len() <= most && !text.as_bytes().contains(&b'@')
}

fn is_digits(text: &[u8]) -> bool
    ensures { result ≡ list_all is_ascii_digit text.now }
{
    text.iter().all(|byte| byte.is_ascii_digit())
}

/// Whether a text can be a name: digits alone would be a number.
fn is_name(text: &str) -> bool
    ensures { result ≡ is_name text.now }
{
    is_word(text, LONGEST_NAME) && !is_digits(text.as_bytes())
}

/// Explains what is wrong with the domain. `None`: nothing is.
fn domain(alloc: Global, table: &Table) -> Result<Option<String>, AllocError>
    ensures { IfOk result (λ words. Reports (is_right_domain (text_at (codes "domain") (table_view table.now))) words) }
{
    let Some(text) = text_at(table, "domain") else {
        return Ok(None);
    };
    if is_word(text, LONGEST_DOMAIN) {
        return Ok(None);
    }
    let words = String::from_str(alloc, "domain: it has 1 to 128 bytes, of which none is @")?;
    Ok(Some(words))
}

/// Explains the first of the root's settings that is out of range.
fn settings(alloc: Global, table: &Table) -> Result<Option<String>, AllocError>
    ensures { IfOk result (λ words. Reports (are_right_settings (table_view table.now)) words) }
{
    if let Some(words) = number(alloc, "root_owner", integer_at(table, "root_owner"))? {
        return Ok(Some(words));
    }
    if let Some(words) = number(alloc, "root_group", integer_at(table, "root_group"))? {
        return Ok(Some(words));
    }
    mode(alloc, integer_at(table, "root_mode"))
}

/// Explains that a mode is out of range.
fn mode(alloc: Global, mode: Option<i64>) -> Result<Option<String>, AllocError>
    ensures { IfOk result (λ words. Reports (is_right_number 4095 mode) words) }
{
    let Some(mode) = mode else {
        return Ok(None);
    };
    if is_up_to(mode, GREATEST_MODE) {
        return Ok(None);
    }
    let words = format!(in alloc;
        "root_mode: {mode} isn't from 0 to 0o7777, which is {GREATEST_MODE}"
    )?;
    Ok(Some(words))
}

/// Explains that the number of this key or name is out of range.
fn number(alloc: Global, name: &str, number: Option<i64>) -> Result<Option<String>, AllocError>
    ensures { IfOk result (λ words. Reports (is_right_number 4294967295 number) words) }
{
    let Some(number) = number else {
        return Ok(None);
    };
    if is_up_to(number, GREATEST) {
        return Ok(None);
    }
    let words = format!(in alloc; "{name}: {number} isn't from 0 to {GREATEST}")?;
    Ok(Some(words))
}

/// Explains the first name or number of a table that is out of range, or that the names are too many.
fn rows(alloc: Global, table: &Table, key: &str) -> Result<Option<String>, AllocError> {
    let Some(names) = names_at(table, key) else {
        return Ok(None);
    };
    if names.len() > MOST_NAMES {
        let words = format!(in alloc;
            "{key}: it has {} names, and at most {MOST_NAMES} can be",
            names.len()
        )?;
        return Ok(Some(words));
    }
    for (name, value) in names {
        if let Some(words) = row(alloc, key, name.as_str(), value.as_integer())? {
            return Ok(Some(words));
        }
    }
    Ok(None)
}

/// Explains what is out of range in a row of a table. `None`: nothing is.
fn row(
    alloc: Global,
    key: &str,
    name: &str,
    integer: Option<i64>,
) -> Result<Option<String>, AllocError>
    ensures { IfOk result (λ words. Reports (is_name name.now && is_right_number 4294967295 integer) words) }
{
    if !is_name(name) {
        let words = format!(in alloc;
            "{key}: {name:?} is no name, which has 1 to 64 bytes, none of them @, and not digits alone"
        )?;
        return Ok(Some(words));
    }
    match number(alloc, name, integer)? {
        Some(words) => Ok(Some(format!(in alloc; "{key}: {words}")?)),
        None => Ok(None),
    }
}

/// Explains that two names have the same number, in the table of users or else of groups.
pub(crate) fn twice(alloc: Global, table: &Table) -> Result<Option<String>, AllocError> {
    if let Some(words) = pair(alloc, table, "users")? {
        return Ok(Some(words));
    }
    pair(alloc, table, "groups")
}

/// Explains that two names have the same number, in the table of a key.
fn pair(alloc: Global, table: &Table, key: &str) -> Result<Option<String>, AllocError> {
    let Some(names) = names_at(table, key) else {
        return Ok(None);
    };
    for (name, value) in names {
        if let Some(other) = before(names, name.as_str(), value.as_integer()) {
            let number = value.as_integer().unwrap_or(0);
            return Ok(Some(format!(in alloc; "{key}: {other} and {name} are both {number}")?));
        }
    }
    Ok(None)
}

/// The name of a table that has this number and comes before another name.
fn before<'a>(names: &'a Table, name: &str, number: Option<i64>) -> Option<&'a str> {
    for (other, value) in names {
        if other.as_str() == name {
            return None;
        }
        if value.as_integer() == number {
            return Some(other.as_str());
        }
    }
    None
}
