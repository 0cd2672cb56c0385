//! Members that the tables don't have, or that occur too often.
use crate::names::names_at;
use std::alloc::{AllocError, Global};
use toml::value::Array;
use toml::{Table, Value};

/// The largest number of groups of a user.
const MOST_GROUPS: usize = 17;

/// Explains what is wrong with the members of a table of the right shape. `None`: nothing is.
pub(crate) fn member(alloc: Global, table: &Table) -> Result<Option<String>, AllocError> {
    let Some(rolls) = names_at(table, "members") else {
        return Ok(None);
    };
    for (group, users) in rolls {
        if let Some(words) = roll(alloc, table, group.as_str(), users)? {
            return Ok(Some(words));
        }
    }
    crowded(alloc, table, rolls)
}

/// Whether the table of a key has a name.
fn has(table: &Table, key: &str, name: &str) -> bool {
    match names_at(table, key) {
        Some(names) => names.get(name).is_some(),
        None => false,
    }
}

/// Explains what is wrong with the array of a group. `None`: nothing is.
fn roll(
    alloc: Global,
    table: &Table,
    group: &str,
    users: &Value,
) -> Result<Option<String>, AllocError> {
    if !has(table, "groups", group) {
        return Ok(Some(format!(in alloc; "members: groups has no {group}")?));
    }
    match users.as_array() {
        Some(users) => listed(alloc, table, group, users),
        None => Ok(None),
    }
}

/// Explains that an array names a user that the book doesn't have, or names a user twice.
fn listed(
    alloc: Global,
    table: &Table,
    group: &str,
    users: &Array,
) -> Result<Option<String>, AllocError> {
    for value in users {
        let name = value.as_str().unwrap_or("");
        if !has(table, "users", name) {
            return Ok(Some(format!(in alloc; "members: {group}: users has no {name}")?));
        }
        if times(users, name) > 1 {
            return Ok(Some(format!(in alloc; "members: {group}: {name} is there twice")?));
        }
    }
    Ok(None)
}

/// The number of times that an array has a name.
fn times(users: &Array, name: &str) -> usize {
    let mut count = 0usize;
    for value in users {
        if value.as_str() == Some(name) {
            count = count.saturating_add(1);
        }
    }
    count
}

/// Explains that a user is in more than 17 groups.
fn crowded(alloc: Global, table: &Table, rolls: &Table) -> Result<Option<String>, AllocError> {
    let Some(users) = names_at(table, "users") else {
        return Ok(None);
    };
    for (name, _) in users {
        let count = groups_of(rolls, name.as_str());
        if count > MOST_GROUPS {
            return Ok(Some(format!(in alloc;
                "members: {name} is in {count} groups, and at most {MOST_GROUPS} can be"
            )?));
        }
    }
    Ok(None)
}

/// The number of arrays that have a name, each counted as often as it has it.
fn groups_of(rolls: &Table, name: &str) -> usize {
    let mut count = 0usize;
    for (_, users) in rolls {
        if let Some(users) = users.as_array() {
            count = count.saturating_add(times(users, name));
        }
    }
    count
}
