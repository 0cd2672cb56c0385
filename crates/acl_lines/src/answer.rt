//! The answer to a line.

use crate::entries::{Form, number};
use acl_list::{AclList, Kind, Verdict, judge, summary};
use acl_reasons::{Reason, why};
use acl_shape::{inherit, mode_of, set_mode};
use rpc_record::{Caller, MOST_FURTHER};
use std::alloc::{AllocError, Global};

fn kind_of(text: &str) -> Option<Kind> {
    match text {
        "d" => Some(Kind::Directory),
        "f" => Some(Kind::File),
        "l" => Some(Kind::Link),
        _ => None,
    }
}

/// A caller with this uid, in the groups of a row that commas separate. The first group is the gid.
fn caller_of(alloc: Global, uid: &str, groups: &str) -> Result<Option<Caller>, AllocError> {
    let Some(uid) = number(uid, 10, 10) else {
        return Ok(None);
    };
    let mut all: Vec<u32> = Vec::new(alloc);
    for part in groups.split(',') {
        match number(part, 10, 10) {
            Some(group) => all.push(group)?,
            None => return Ok(None),
        }
    }
    match all.split_first() {
        Some((gid, further)) if further.len() <= MOST_FURTHER => {
            Ok(Some(Caller::new(uid, *gid, further)))
        }
        _ => Ok(None),
    }
}

/// The object, the caller and the mask that a line `judge` or `why` asks about.
#[derive(Drop)]
struct Question {
    list: AclList,
    owner: u32,
    group: u32,
    caller: Caller,
    mask: u32,
}

/// The question of a line, from the words after the first one.
fn asked_in(alloc: Global, form: &Form, words: &[&str]) -> Result<Option<Question>, AllocError> {
    let [kind, owner, group, uid, groups, mask, list] = words else {
        return Ok(None);
    };
    let (Some(kind), Some(owner), Some(group), Some(mask)) = (
        kind_of(kind),
        number(owner, 10, 10),
        number(group, 10, 10),
        number(mask, 16, 8),
    ) else {
        return Ok(None);
    };
    let Some(caller) = caller_of(alloc, uid, groups)? else {
        return Ok(None);
    };
    match form.read(alloc, kind, list)? {
        Some(list) => Ok(Some(Question {
            list,
            owner,
            group,
            caller,
            mask,
        })),
        None => Ok(None),
    }
}

fn answer_judge(alloc: Global, form: &Form, words: &[&str]) -> Result<Option<String>, AllocError> {
    let Some(it) = asked_in(alloc, form, words)? else {
        return Ok(None);
    };
    let verdict = match judge(&it.list, it.owner, it.group, &it.caller, it.mask) {
        Verdict::Granted => "granted",
        Verdict::Denied(_) => "denied",
        Verdict::Missing(_) => "missing",
    };
    let granted = summary(&it.list, it.owner, it.group, &it.caller).granted & it.mask;
    Ok(Some(format!(in alloc; "{verdict} {granted:08x}")?))
}

fn answer_why(alloc: Global, form: &Form, words: &[&str]) -> Result<Option<String>, AllocError> {
    let Some(it) = asked_in(alloc, form, words)? else {
        return Ok(None);
    };
    let text = match why(&it.list, it.owner, it.group, &it.caller, it.mask) {
        Reason::Granted => format!(in alloc; "granted")?,
        Reason::Denied { entry, bit } => {
            let number = entry.saturating_add(1);
            format!(in alloc; "denied {number} {bit:08x}")?
        }
        Reason::Missing { bit } => format!(in alloc; "missing {bit:08x}")?,
    };
    Ok(Some(text))
}

fn answer_mode(alloc: Global, form: &Form, words: &[&str]) -> Result<Option<String>, AllocError> {
    let [kind, owner, group, list] = words else {
        return Ok(None);
    };
    let (Some(kind), Some(_), Some(_)) = (
        kind_of(kind),
        number(owner, 10, 10),
        number(group, 10, 10),
    ) else {
        return Ok(None);
    };
    let Some(list) = form.read(alloc, kind, list)? else {
        return Ok(None);
    };
    let mode = mode_of(&list);
    Ok(Some(format!(in alloc; "{mode:03o}")?))
}

fn answer_chmod(alloc: Global, form: &Form, words: &[&str]) -> Result<Option<String>, AllocError> {
    let [kind, mode, list] = words else {
        return Ok(None);
    };
    let (Some(kind), Some(mode)) = (kind_of(kind), number(mode, 8, 4)) else {
        return Ok(None);
    };
    let Some(list) = form.read(alloc, kind, list)? else {
        return Ok(None);
    };
    let made = set_mode(alloc, &list, kind, mode)?;
    Ok(Some(form.write(alloc, &made)?))
}

fn answer_inherit(
    alloc: Global,
    form: &Form,
    words: &[&str],
) -> Result<Option<String>, AllocError> {
    let [kind, list] = words else {
        return Ok(None);
    };
    let Some(kind) = kind_of(kind) else {
        return Ok(None);
    };
    let Some(list) = form.read(alloc, kind, list)? else {
        return Ok(None);
    };
    let made = inherit(alloc, &list, kind)?;
    Ok(Some(form.write(alloc, &made)?))
}

/// The answer to a line. `None`: the line can't be read.
pub(crate) fn answer(alloc: Global, form: &Form, line: &str) -> Result<Option<String>, AllocError> {
    let words: Vec<&str> = line.split(' ').collect(alloc)?;
    match words.as_slice() {
        ["judge", rest @ ..] => answer_judge(alloc, form, rest),
        ["why", rest @ ..] => answer_why(alloc, form, rest),
        ["mode", rest @ ..] => answer_mode(alloc, form, rest),
        ["chmod", rest @ ..] => answer_chmod(alloc, form, rest),
        ["inherit", rest @ ..] => answer_inherit(alloc, form, rest),
        _ => Ok(None),
    }
}
