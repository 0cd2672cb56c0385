//! The permissions of a mask in words.
use acl_list::Kind;
use acl_words::{RIGHTS, right_name};
use std::io;
use std::io::Write;

/// Writes the name of a permission on an object of this type; if the type isn't known, both names. A bit without a
/// name is written in digits.
pub(crate) fn write_right<W: Write>(out: &mut W, right: u32, kind: Option<Kind>) -> io::Result<()> {
    let on_other = right_name(kind.unwrap_or(Kind::File), right);
    let on_directory = right_name(kind.unwrap_or(Kind::Directory), right);
    match (on_other, on_directory) {
        (Some(name), Some(other)) if name != other => write!(out, "{name}/{other}"),
        (Some(name), _) => write!(out, "{name}"),
        (None, _) => write!(out, "right {right:08x}"),
    }
}

/// The text before a permission of a mask, by whether it is the first or the last one.
fn joint(is_first: bool, is_last: bool) -> &'static str {
    if is_first {
        ""
    } else if is_last {
        " and "
    } else {
        ", "
    }
}

/// Writes the permissions of a mask, the lowest bit first; those without a name together at the end.
pub(crate) fn write_rights<W: Write>(
    out: &mut W,
    rights: u32,
    kind: Option<Kind>,
) -> io::Result<()> {
    let mut left = rights;
    for right in RIGHTS {
        if left & right != 0 {
            let is_first = left == rights;
            left &= !right;
            out.write_all(joint(is_first, left == 0).as_bytes())?;
            write_right(out, right, kind)?;
        }
    }
    if left != 0 || rights == 0 {
        out.write_all(joint(left == rights, true).as_bytes())?;
        write_right(out, left, kind)?;
    }
    Ok(())
}
