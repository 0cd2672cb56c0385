//! Modes of the root that are most likely mistakes.

/// The bits of a mode for reading, writing and executing.
const PERMISSIONS: u32 = 0o777;

/// The number whose octal digits are the decimal digits of a mode, where the mode has bits above
/// 0o777 and all its digits are octal.
fn as_octal(mode: u32) -> Option<u32> {
    if mode <= PERMISSIONS {
        return None;
    }
    let mut left = mode;
    let mut octal = 0u32;
    let mut place = 1u32;
    for _digit in 0..4 {
        let digit = left % 10;
        if digit > 7 {
            return None;
        }
        octal = octal.wrapping_add(digit.wrapping_mul(place));
        place = place.wrapping_mul(8);
        left /= 10;
    }
    Some(octal)
}

/// Whether a line of a book has the root's mode in decimal digits.
fn is_decimal(line: &str) -> bool {
    let Some(rest) = line.trim().strip_prefix("root_mode") else {
        return false;
    };
    let Some(value) = rest.trim_start().strip_prefix('=') else {
        return false;
    };
    matches!(
        value.trim_start().as_bytes().first(),
        Some(b'1'..=b'9' | b'+')
    )
}

/// Warns on standard error if a book's mode of the root is most likely a mistake: its decimal digits are those of
/// another mode in octal. For example, 755 is 0o1363.
pub(crate) fn report<R: Eprint>(rt: &R, path: &str, text: &str, mode: u32) {
    let Some(octal) = as_octal(mode) else {
        return;
    };
    if text.lines().any(is_decimal) {
        let _ = eprintln!(rt;
            "nfsd: {path}: root_mode = {mode} is the mode 0o{mode:o}; for the mode {mode} in octal write 0o{octal:o}"
        );
    }
}
