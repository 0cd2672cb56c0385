//! Keys that are missing or unknown, and values of another type.
use std::alloc::{AllocError, Global};
use toml::{Table, Value};

/// A key of a book, and a line that gives it a value.
struct Key {
    name: &'static str,
    example: &'static str,
}

/// The keys that each book must have.
static KEYS: [Key; 6] = [
    Key {
        name: "domain",
        example: "domain = \"example.org\"",
    },
    Key {
        name: "root_owner",
        example: "root_owner = 0",
    },
    Key {
        name: "root_group",
        example: "root_group = 0",
    },
    Key {
        name: "root_mode",
        example: "root_mode = 0o755",
    },
    Key {
        name: "users",
        example: "users = { root = 0, alice = 1001 }",
    },
    Key {
        name: "groups",
        example: "groups = { wheel = 0, staff = 100 }",
    },
];

/// The key that a book may leave out.
const MEMBERS: &str = "members";

/// A line that gives `members` a value.
const ROLLS: &str = "members = { staff = [\"alice\"] }";

fn keys() -> &'static [Key] {
    &KEYS
}

/// Explains what is wrong with the keys of a table or the types of their values. `None`: nothing is.
pub(crate) fn shape(alloc: Global, table: &Table) -> Result<Option<String>, AllocError> {
    if let Some(words) = unknown(alloc, table)? {
        return Ok(Some(words));
    }
    for key in keys() {
        if let Some(words) = of_key(alloc, table, key)? {
            return Ok(Some(words));
        }
    }
    rolls(alloc, table)
}

/// Explains that a table has a key that no book has.
fn unknown(alloc: Global, table: &Table) -> Result<Option<String>, AllocError> {
    for key in table.keys() {
        let name = key.as_str();
        if !is_known(name) {
            let words = format!(in alloc;
                "{name}: no key of a book, which has domain, root_owner, root_group, root_mode, users and groups, \
                 and perhaps members"
            )?;
            return Ok(Some(words));
        }
    }
    Ok(None)
}

fn is_known(name: &str) -> bool {
    name == MEMBERS || keys().iter().any(|key| key.name == name)
}

/// Explains what is wrong with a key that each book must have. `None`: nothing is.
fn of_key(alloc: Global, table: &Table, key: &Key) -> Result<Option<String>, AllocError> {
    let (name, example) = (key.name, key.example);
    let Some(value) = table.get(name) else {
        let words = format!(in alloc; "{name}: the key is missing, as in {example}")?;
        return Ok(Some(words));
    };
    if name == "users" || name == "groups" {
        return rows(alloc, name, example, value);
    }
    let is_right = if name == "domain" {
        value.as_str().is_some()
    } else {
        value.as_integer().is_some()
    };
    if is_right {
        return Ok(None);
    }
    let words = format!(in alloc; "{name}: the value has another type than in {example}")?;
    Ok(Some(words))
}

/// Explains what is wrong with the type of a table of names, or of a number in it. `None`: nothing is.
fn rows(
    alloc: Global,
    key: &str,
    example: &str,
    value: &Value,
) -> Result<Option<String>, AllocError> {
    let Some(names) = value.as_table() else {
        let words = format!(in alloc; "{key}: the value has another type than in {example}")?;
        return Ok(Some(words));
    };
    for (name, number) in names {
        if number.as_integer().is_none() {
            let words = format!(in alloc; "{key}: {name} has no whole number, as in {example}")?;
            return Ok(Some(words));
        }
    }
    Ok(None)
}

/// Explains what is wrong with the type of `members`, or of an array in it. `None`: nothing is.
fn rolls(alloc: Global, table: &Table) -> Result<Option<String>, AllocError> {
    let Some(value) = table.get(MEMBERS) else {
        return Ok(None);
    };
    let Some(groups) = value.as_table() else {
        let words = format!(in alloc; "{MEMBERS}: the value has another type than in {ROLLS}")?;
        return Ok(Some(words));
    };
    for (group, users) in groups {
        if !are_texts(users) {
            let words = format!(in alloc;
                "{MEMBERS}: {group} has no array of names, as in {ROLLS}"
            )?;
            return Ok(Some(words));
        }
    }
    Ok(None)
}

/// Whether a value is an array of texts.
fn are_texts(value: &Value) -> bool {
    let Some(array) = value.as_array() else {
        return false;
    };
    for item in array {
        if item.as_str().is_none() {
            return false;
        }
    }
    true
}
