//! Paths as they are printed.
use std::fmt::{Display, Formatter};
use std::{fmt, str};

/// A path as it is printed, on one line. Control characters and backslashes are printed as `\x` and
/// two hexadecimal digits for each byte. If the path isn't UTF-8, all of its bytes are.
#[derive(Clone, Copy)]
pub(crate) struct Printable<'a>(pub(crate) &'a [u8]);

/// Writes bytes by their numbers.
fn write_bytes<W: fmt::Write>(f: &mut Formatter<W>, bytes: &[u8]) -> fmt::Result {
    for byte in bytes {
        write!(f, "\\x{byte:02x}")?;
    }
    Ok(())
}

impl Display for Printable<'_> {
    fn fmt<W: fmt::Write>(&self, f: &mut Formatter<W>) -> fmt::Result {
        let Ok(text) = str::from_utf8(self.0) else {
            return write_bytes(f, self.0);
        };
        for letter in text.chars() {
            if letter.is_control() || letter == '\\' {
                let mut bytes = [0; 4];
                write_bytes(f, letter.encode_utf8(&mut bytes).as_bytes())?;
            } else {
                write!(f, "{letter}")?;
            }
        }
        Ok(())
    }
}
