//! The fields of a line of the trail, in its text. The result is compared with the text as a whole afterwards.
use access_guard::{Cause, Line, LineKind};
use nfs_ops::operation_name;

/// The numbers of operations are below this one (RFC 8881, section 18).
const OPERATIONS: u32 = 64;

/// The words before the number of missing lines.
pub(crate) const LOST: &str = "LOST lines=";

fn kind_of(word: &str) -> Option<LineKind> {
    match word.as_bytes() {
        b"DENY" => Some(LineKind::Deny),
        b"AUDIT" => Some(LineKind::Audit),
        b"ALARM" => Some(LineKind::Alarm),
        _ => None,
    }
}

/// The number of the operation of a name.
pub(crate) fn operation_of(name: &str) -> Option<u32> {
    for op in 0..OPERATIONS {
        if let Some(known) = operation_name(op) {
            if known.eq_ignore_ascii_case(name.as_bytes()) {
                return Some(op);
            }
        }
    }
    None
}

/// A mask in hexadecimal digits.
fn mask_of(word: &str) -> Option<u32> {
    u32::from_str_radix(word, 16).ok()
}

/// The value of a field of this name.
fn value_of<'a>(word: Option<&'a str>, name: &str) -> Option<&'a str> {
    word?.strip_prefix(name)
}

fn number_of(word: Option<&str>, name: &str) -> Option<u64> {
    value_of(word, name)?.parse::<u64>().ok()
}

fn cause_of(word: Option<&str>) -> Option<Cause> {
    if let Some(entry) = number_of(word, "entry=") {
        return Some(Cause::ByEntry(entry as usize));
    }
    let bit = mask_of(value_of(word, "missing=")?)?;
    Some(Cause::Missing(bit))
}

fn op_of(word: &str) -> Option<u32> {
    match operation_of(word) {
        Some(op) => Some(op),
        None => word.parse::<u32>().ok(),
    }
}

/// The line of the trail that a text may represent, by its fields in their order.
pub(crate) fn line_in(text: &str) -> Option<Line> {
    let mut words = text.split(' ');
    let kind = kind_of(words.next()?)?;
    let uid = number_of(words.next(), "uid=")?;
    let op = op_of(value_of(words.next(), "op=")?)?;
    let object = number_of(words.next(), "obj=")?;
    let mask = mask_of(value_of(words.next(), "mask=")?)?;
    let granted = kind != LineKind::Deny && words.next()? == "granted";
    let cause = cause_of(words.next())?;
    Some(Line {
        kind,
        uid: u32::try_from(uid).ok()?,
        op,
        object,
        mask,
        granted,
        cause,
    })
}

/// The number of missing lines that a text may represent.
pub(crate) fn lost_in(text: &str) -> Option<u64> {
    text.strip_prefix(LOST)?.parse::<u64>().ok()
}
