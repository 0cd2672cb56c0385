//! Hexadecimal digits. A text has millions of them, so they are read in one loop: with checks of each call, a call for
//! each digit takes long.

use std::alloc::Global;
use std::test::Fail;

/// The bytes of these digits.
pub fn bytes_in(alloc: Global, digits: &str) -> Result<Vec<u8>, Fail> {
    let digits = digits.as_bytes();
    if digits.len() % 2 != 0 {
        return Err(Fail::new("half a byte"));
    }
    let mut bytes = vec![in alloc; 0u8; digits.len() / 2]?;
    let mut place = 0;
    while place < digits.len() {
        let digit = digits[place];
        let value = if digit >= b'0' && digit <= b'9' {
            digit - b'0'
        } else if digit >= b'a' && digit <= b'f' {
            digit - b'a' + 10
        } else {
            return Err(Fail::new("no hexadecimal digit"));
        };
        bytes[place / 2] = bytes[place / 2] % 16 * 16 + value;
        place += 1;
    }
    Ok(bytes)
}
