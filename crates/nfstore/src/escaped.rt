//! Names as they are printed.
use std::io;
use std::io::Write;

/// Writes a name. Control characters and the backslash are written as `\x` and two hexadecimal digits, so that each
/// line is one name.
pub(crate) fn write_name<W: Write>(out: &mut W, name: &[u8]) -> io::Result<()> {
    for byte in name {
        let byte = *byte;
        if byte < 0x20 || byte == 0x7F || byte == b'\\' {
            write!(out, "\\x{byte:02x}")?;
        } else {
            out.write_all(&[byte])?;
        }
    }
    Ok(())
}
