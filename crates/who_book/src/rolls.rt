//! The value of the document's key `members`, before names are looked up.
ghost use Rattle.std.specs.Prelude.{◌≡◌, IfOk, IfSome, option_map};
ghost use Rattle.toml.specs.View.{array_view, table_view, view};
ghost use Rattle.who_book.specs.Document.{texts, texts_in, rolls, rolls_in, rolls_at};
ghost use Rattle.who_book.specs.Outlines.{texts_of, rolls_of, IsAscending, Finds};

use crate::fault::BookFault;
use std::alloc::Global;
use toml::value::Array;
use toml::{Table, Value};

/// A group with the users in its array, by their names.
#[derive(Drop)]
pub struct Roll<'a> {
    pub group: &'a str,
    pub users: Vec<&'a str>,
}

/// The texts of an array. `Shape`: an item isn't a text.
fn texts<'a>(alloc: Global, array: &'a Array) -> Result<Vec<&'a str>, BookFault>
    ensures { Finds (λ names. texts_of names.items) result (texts (array_view array.now)) }
{
    let mut names = Vec::new(alloc);
    for value in array {
        let Some(name) = value.as_str() else {
            return Err(BookFault::Shape);
        };
        names.push(name)?;
    }
    Ok(names)
}

/// The texts of a value. `Shape`: the value isn't an array, or an item isn't a text.
fn texts_in<'a>(alloc: Global, value: &'a Value) -> Result<Vec<&'a str>, BookFault>
    ensures { Finds (λ names. texts_of names.items) result (texts_in (view value.now)) }
{
    match value.as_array() {
        Some(array) => texts(alloc, array),
        None => Err(BookFault::Shape),
    }
}

/// The rolls of a table, in the order of the groups' names. `Shape`: a value isn't an array of texts.
fn rolls<'a>(alloc: Global, table: &'a Table) -> Result<Vec<Roll<'a>>, BookFault>
    ensures found { Finds (λ rolls. rolls_of rolls.items) result (rolls (table_view table.now)) }
    ensures ascending { IfOk result (λ rolls. IsAscending (rolls_of rolls.items)) }
{
    let mut rolls = Vec::new(alloc);
    for (group, value) in table {
        let users = texts_in(alloc, value)?;
        rolls.push(Roll {
            group: group.as_str(),
            users,
        })?;
    }
    Ok(rolls)
}

/// The rolls of a value. `Shape`: it isn't a table, or one of its values isn't an array of texts.
fn rolls_in<'a>(alloc: Global, value: &'a Value) -> Result<Vec<Roll<'a>>, BookFault>
    ensures found { Finds (λ rolls. rolls_of rolls.items) result (rolls_in (view value.now)) }
    ensures ascending { IfOk result (λ rolls. IsAscending (rolls_of rolls.items)) }
{
    match value.as_table() {
        Some(table) => rolls(alloc, table),
        None => Err(BookFault::Shape),
    }
}

/// The rolls of a key that may be missing.
pub fn rolls_at<'a>(
    alloc: Global,
    table: &'a Table,
    key: &str,
) -> Result<Option<Vec<Roll<'a>>>, BookFault>
    ensures found { Finds (option_map (λ rolls. rolls_of rolls.items)) result
        (rolls_at key.now (table_view table.now)) }
    ensures ascending { IfOk result (λ found. IfSome found (λ rolls. IsAscending (rolls_of rolls.items))) }
{
    match table.get(key) {
        Some(value) => Ok(Some(rolls_in(alloc, value)?)),
        None => Ok(None),
    }
}
