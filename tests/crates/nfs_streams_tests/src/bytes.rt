//! Calls and their replies, as bytes in a value of one size.

/// At most 256 bytes.
#[derive(Clone, Copy)]
pub struct Bytes {
    bytes: [u8; 256],
    len: usize,
}

impl Bytes {
    pub fn none() -> Self {
        Bytes {
            bytes: [0; 256],
            len: 0,
        }
    }

    pub fn as_slice(&self) -> &[u8] {
        self.bytes.get(..self.len).unwrap_or(&[])
    }

    /// Drops the last `count` bytes.
    pub fn drop_last(&mut self, count: usize) {
        self.len = self.len.saturating_sub(count);
    }

    fn put_byte(&mut self, byte: u8) {
        if let Some(place) = self.bytes.get_mut(self.len) {
            *place = byte;
            self.len = self.len.saturating_add(1);
        }
    }

    fn put_number(&mut self, number: u32) {
        for byte in number.to_be_bytes() {
            self.put_byte(byte);
        }
    }

    /// Appends words of four bytes, in hexadecimal digits, high byte first; `x` represents this number.
    fn put(&mut self, words: &str, number: u32) {
        for word in words.split_whitespace() {
            self.put_number(u32::from_str_radix(word, 16).unwrap_or(number));
        }
    }
}

/// PUTROOTFH, LOOKUP of `notes`, ACCESS of READ, MODIFY, EXTEND and EXECUTE, by user 1002 in group 100.
const CALL: &str =
    "80000068 x 0 2 186a3 4 1 1 18 0 0 3ea 64 1 64 0 0 0 1 3 18 f 5 6e6f7465 73000000 3 2d";

/// PUTROOTFH and REMOVE of `notes`, by the same user, who has no permission for it.
const REMOVE: &str =
    "80000060 x 0 2 186a3 4 1 1 18 0 0 3ea 64 1 64 0 0 0 1 2 18 1c 5 6e6f7465 73000000";

/// PUTROOTFH, LOOKUP of `pub` and CREATE of a directory `made`, by the same user, who has the permission for it.
const MAKE: &str =
    "80000074 x 0 2 186a3 4 1 1 18 0 0 3ea 64 1 64 0 0 0 1 3 18 f 3 70756200 6 2 4 6d616465 0 0";

/// The reply if the caller may read, and the reply if the caller may not.
const REPLY: &str = "80000044 x 1 0 0 0 0 0 0 3 18 0 f 0 3 0 2d 1";

const NO_RIGHT: &str = "80000044 x 1 0 0 0 0 0 0 3 18 0 f 0 3 0 2d 0";

/// The number of bytes of a reply.
pub const REPLY_LEN: usize = 72;

/// `calls` calls of a peer, and after them, if `breaks` is set, bytes that break its connection. The calls are numbered
/// from 1,000 times the peer's number on.
pub fn calls_of(peer: u32, calls: u32, breaks: bool) -> Bytes {
    let mut bytes = Bytes::none();
    let first = peer.saturating_mul(1_000);
    for number in first..first.saturating_add(calls) {
        bytes.put(CALL, number);
    }
    if breaks {
        bytes.put("80020001", 0);
    }
    bytes
}

/// `calls` calls of a peer that are refused.
pub fn removes_of(peer: u32, calls: u32) -> Bytes {
    let mut bytes = Bytes::none();
    let first = peer.saturating_mul(1_000);
    for number in first..first.saturating_add(calls) {
        bytes.put(REMOVE, number);
    }
    bytes
}

/// A call of a peer that makes a directory.
pub fn makes_of(peer: u32) -> Bytes {
    let mut bytes = Bytes::none();
    bytes.put(MAKE, peer.saturating_mul(1_000));
    bytes
}

/// The replies to the first calls of a peer, a digit a call: 1 if the caller may read the file, 0 if not.
pub fn replies_to(peer: u32, digits: &str) -> Bytes {
    let mut bytes = Bytes::none();
    let mut number = peer.saturating_mul(1_000);
    for digit in digits.bytes() {
        let words = if digit == b'1' { REPLY } else { NO_RIGHT };
        bytes.put(words, number);
        number = number.saturating_add(1);
    }
    bytes
}
