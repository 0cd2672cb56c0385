//! Names of objects, `component4` (RFC 8881, section 3.3).
ghost use Rattle.std.specs.Prelude.{◌≡◌};
ghost use Rattle.std.specs.List.{list_any};
ghost use Rattle.nfs_types.specs.Name.{name_fault, separates};
ghost use Rattle.nfs_types.specs.Name as specs;
ghost use Rattle.std.specs.Str as text;

use crate::status::Status;

/// The largest number of bytes of a name, the attribute `maxname`.
pub const MAX_NAME: usize = 255;

fn is_utf8(name: &[u8]) -> bool
    ensures { result ≡ text.is_utf8 name.now }
{
    str::from_utf8(name).is_ok()
}

/// Whether a byte can't occur in a name: `/` and NUL.
fn has_separator(name: &[u8]) -> bool
    ensures { result ≡ list_any separates name.now }
{
    name.iter().any(|b| *b == b'/' || *b == 0)
}

/// Whether the name is `.` or `..`.
fn is_dots(name: &[u8]) -> bool
    ensures { result ≡ specs.is_dots name.now }
{
    match name {
        [a] => *a == b'.',
        [a, b] => *a == b'.' && *b == b'.',
        _ => false,
    }
}

/// The fault of a name of a directory's entry, `component4` (RFC 8881, sections 1.8.1 and 14). `None`: the name is
/// valid. The fault is the first of these, in this order: empty, `Inval`; over 255 bytes, `NameTooLong`; not UTF-8,
/// `Inval`; with `/` or NUL in it, `BadChar`; `.` or `..`, `BadName`.
pub fn check_name(name: &[u8]) -> Option<Status>
    ensures { result ≡ name_fault name.now }
{
    if name.is_empty() {
        return Some(Status::Inval);
    }
    if name.len() > MAX_NAME {
        return Some(Status::NameTooLong);
    }
    if !is_utf8(name) {
        return Some(Status::Inval);
    }
    if has_separator(name) {
        return Some(Status::BadChar);
    }
    if is_dots(name) {
        return Some(Status::BadName);
    }
    None
}
