//! Peers, and the streams between them and the server.

use crate::bytes::{Bytes, calls_of, makes_of, removes_of, replies_to};
use nfs_streams::{Moved, StreamEnd};

/// The acts of the peer of a stream.
#[derive(Clone, Copy)]
pub struct Script {
    /// How many waits come before it connects.
    pub arrives: u64,
    /// How many calls it sends.
    pub calls: u32,
    /// It sends them again and again.
    pub retries: bool,
    /// Its calls are refused: each would remove the file.
    pub removes: bool,
    /// It makes a directory by one call.
    pub makes: bool,
    /// The stream ends inside the last call.
    pub stops_short: bool,
    /// After its calls the peer sends bytes that break the connection.
    pub breaks: bool,
    /// After all its bytes the stream ends; else the peer stays silent.
    pub leaves: bool,
    /// The most bytes that a read gives.
    pub piece: usize,
    /// The most bytes that a write takes; 0: the peer never reads.
    pub takes: usize,
    /// The waits of eight in which bytes can be read or written.
    pub ready: u8,
    /// The read of this number fails.
    pub fails_read: u32,
    /// The write of this number fails.
    pub fails_write: u32,
}

/// A peer that connects at once, sends two calls and leaves.
pub const USUAL: Script = Script {
    arrives: 0,
    calls: 2,
    retries: false,
    removes: false,
    makes: false,
    stops_short: false,
    breaks: false,
    leaves: true,
    piece: 4096,
    takes: 4096,
    ready: 0xff,
    fails_read: u32::MAX,
    fails_write: u32::MAX,
};

/// A peer that sends `calls` calls, leaves or is silent then, and connects after `arrives` waits.
fn peer(arrives: u64, calls: u32, leaves: bool) -> Script {
    Script {
        arrives,
        calls,
        leaves,
        ..USUAL
    }
}

/// The script of a word: the type of the peer by a letter, and a number, how many waits come before it connects.
///
/// | Letter | The peer |
/// |---|---|
/// | u | sends two calls and leaves |
/// | b | sends two calls, and then bytes that break its connection |
/// | c | sends one call in single bytes, and then bytes that break its connection; it takes three bytes at once |
/// | g | sends at once bytes that break its connection |
/// | n | leaves at once |
/// | w | sends two calls in single bytes and leaves |
/// | o | sends a call, and then is silent; it is ready in one wait of eight |
/// | d | sends calls again and again and never reads |
/// | s | is silent |
/// | h | sends one call and half of another, and leaves |
/// | r | sends two calls that are refused, in one piece, and leaves |
/// | m | sends a call that makes a directory, and leaves |
pub fn script_of(word: &str) -> Script {
    let arrives = word.get(1..).unwrap_or("").parse::<u64>().unwrap_or(0);
    match word.as_bytes().first() {
        Some(b'b') => Script {
            breaks: true,
            ..peer(arrives, 2, false)
        },
        Some(b'c') => Script {
            breaks: true,
            piece: 1,
            takes: 3,
            ..peer(arrives, 1, true)
        },
        Some(b'g') => Script {
            breaks: true,
            ..peer(arrives, 0, false)
        },
        Some(b'n') => peer(arrives, 0, true),
        Some(b'w') => Script {
            piece: 1,
            ..peer(arrives, 2, true)
        },
        Some(b'o') => Script {
            ready: 0x80,
            ..peer(arrives, 1, false)
        },
        Some(b'd') => Script {
            retries: true,
            takes: 0,
            ..peer(arrives, 2, true)
        },
        Some(b's') => peer(arrives, 0, false),
        Some(b'h') => Script {
            stops_short: true,
            ..peer(arrives, 2, true)
        },
        Some(b'r') => Script {
            removes: true,
            ..peer(arrives, 2, true)
        },
        Some(b'm') => Script {
            makes: true,
            ..peer(arrives, 1, true)
        },
        _ => peer(arrives, 2, true),
    }
}

/// The bytes that a peer sends.
fn input_of(number: u32, script: Script) -> Bytes {
    let mut input = if script.removes {
        removes_of(number, script.calls)
    } else if script.makes {
        makes_of(number)
    } else {
        calls_of(number, script.calls, script.breaks)
    };
    if script.stops_short {
        input.drop_last(54);
    }
    input
}

/// The state of a stream.
#[derive(Clone, Copy)]
pub enum Seat {
    Outside,
    At(usize),
    /// The stream was closed after this number of waits.
    Done(u64),
}

/// A peer's stream. The bytes that the server writes are compared with the expected replies.
#[derive(Clone, Copy)]
pub struct Stream {
    pub script: Script,
    input: Bytes,
    replies: Bytes,
    /// The place in the input.
    at: usize,
    /// How many bytes were read.
    pub read: usize,
    reads: u32,
    writes: u32,
    /// How many bytes were written to the stream, and whether they are a prefix of the replies.
    pub sent: usize,
    pub right: bool,
    pub seat: Seat,
    /// How the connection ended.
    pub end: Option<StreamEnd>,
}

impl Stream {
    /// The stream of a peer, whose calls are to be answered by these digits, a digit a call.
    pub fn new(number: u32, script: Script, digits: &str) -> Self {
        Stream {
            script,
            input: input_of(number, script),
            replies: replies_to(number, digits),
            at: 0,
            read: 0,
            reads: 0,
            writes: 0,
            sent: 0,
            right: true,
            seat: Seat::Outside,
            end: None,
        }
    }

    /// Whether all replies were written, and nothing more.
    pub fn has_all(&self) -> bool {
        self.right && self.sent == self.replies.as_slice().len()
    }

    pub fn is_at(&self, place: usize) -> bool {
        match self.seat {
            Seat::At(at) => at == place,
            Seat::Outside | Seat::Done(_) => false,
        }
    }

    fn is_ready(&self, waits: u64) -> bool {
        (self.script.ready >> (waits % 8)) & 1 == 1
    }

    /// The next byte of the input, which begins again if the peer repeats its calls.
    fn next_byte(&mut self) -> Option<u8> {
        if self.script.retries && self.at >= self.input.as_slice().len() {
            self.at = 0;
        }
        let byte = self.input.as_slice().get(self.at).copied()?;
        self.at = self.at.saturating_add(1);
        Some(byte)
    }

    /// Copies the next bytes of the input, and returns their number.
    fn give_more(&mut self, buf: &mut [u8]) -> usize {
        let mut n = 0usize;
        for index in 0..buf.len().min(self.script.piece) {
            let (Some(byte), Some(place)) = (self.next_byte(), buf.get_mut(index)) else {
                break;
            };
            *place = byte;
            n = n.saturating_add(1);
        }
        n.min(buf.len())
    }

    /// Gives a piece.
    pub fn give(&mut self, waits: u64, buf: &mut [u8]) -> Moved {
        if !self.is_ready(waits) {
            return Moved::NotYet;
        }
        self.reads = self.reads.saturating_add(1);
        if self.reads == self.script.fails_read {
            return Moved::Failed;
        }
        let n = self.give_more(buf);
        self.read = self.read.saturating_add(n);
        if n > 0 {
            return Moved::Bytes(n);
        }
        if self.script.leaves {
            Moved::Over
        } else {
            Moved::NotYet
        }
    }

    /// Compares bytes with the next bytes of the replies.
    fn receive(&mut self, bytes: &[u8]) {
        let end = self.sent.saturating_add(bytes.len());
        let is_next = self.replies.as_slice().get(self.sent..end) == Some(bytes);
        self.right = self.right && is_next;
        self.sent = end;
    }

    /// Takes a prefix of the bytes.
    pub fn take(&mut self, waits: u64, bytes: &[u8]) -> Moved {
        if !self.is_ready(waits) {
            return Moved::NotYet;
        }
        self.writes = self.writes.saturating_add(1);
        if self.writes == self.script.fails_write {
            return Moved::Failed;
        }
        let n = bytes.len().min(self.script.takes);
        if n == 0 {
            return Moved::NotYet;
        }
        self.receive(&bytes[..n]);
        Moved::Bytes(n)
    }
}
