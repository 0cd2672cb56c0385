//! Record marking (RFC 5531, section 11): finds the records of a stream.
ghost use Rattle.std.specs.Prelude.{◌≡◌, ◌≢◌, ◌≤◌, ◌<◌, ◌+◌, ◌++◌, ◌∷◌, List, [], length, take, IsTrue, ℕ, ◌↔◌};
ghost use Rattle.std.specs.Prelude.{true};
ghost use Rattle.std.specs.Int.{w32, to_be_bytes};
ghost use Rattle.rpc_record.specs.Records.{Cuts, IsRecord, IsEnd, IsUnfinished, Breaks, mark};
ghost use Rattle.rpc_record.specs.Frame.{Frame, is_inside};
ghost use Rattle.rpc_record.specs.Framer.{HasRead};

use std::marker::Model;

/// The largest number of bytes of a record, not counting its headers.
pub const RECORD_LIMIT: usize = 131_072;

// the top bit of a header, which is set on the last fragment of a record
const LAST: u32 = 1 << 31;

/// A step in a piece from `at` on. After `Part` and `Record` the next call continues at their second number.
#[derive(Clone, Copy, Debug, PartialEq, Eq)]
pub enum Step {
    /// The bytes of the piece from the first to the second number, possibly none, belong to the record.
    Part(usize, usize),
    /// The bytes of the piece from the first to the second number, possibly none, end the record.
    Record(usize, usize),
    /// The piece is consumed.
    NeedMore,
    /// A header takes its record above [`RECORD_LIMIT`]. Nothing more of the stream is read.
    Broken,
}

/// Finds the records in a stream that arrives in pieces, whatever its fragments and wherever it is cut. It stores no
/// byte of a record and allocates nothing: its user joins the parts.
#[derive(Drop)]
pub struct Framer {
    // the first bytes of a header that isn't whole
    header: [u8; 4],
    have: usize,
    // the number of bytes of the fragment that are left, and whether it is the last of its record
    left: usize,
    last: bool,
    // the number of bytes of the record that have arrived
    joined: usize,
    // whether a header of the record has been read
    begun: bool,
    broken: bool,
}

impl Model for Framer {
    ghost use Rattle.std.specs.Prelude.{◌<◌, ◌≤◌, ◌+◌, take};
    ghost use Rattle.rpc_record.specs.Frame.{Frame};

    ghost Value = { Frame };

    ghost view = { λ f. record {
      header = take f.have f.header;
      left = f.left;
      last = f.last;
      joined = f.joined;
      begun = f.begun;
      broken = f.broken;
    } };

    ghost invariant = { λ f. (f.have < 4) × (f.joined + f.left ≤ 131072) };
}

/// Puts bytes after the first `have` bytes of a header.
fn put_header(header: &mut [u8; 4], have: usize, bytes: &[u8])
    requires { have + length bytes.now ≤ 4 }
    ensures { take (have + length bytes.now) header.new ≡ take have header.old ++ bytes.now }
{
    for (i, b) in bytes.iter().enumerate() {
        header[have + i] = *b;
    }
}

impl Framer {
    ghost use Rattle.rpc_record.specs.Framer.{HasRead, StepGives, IsWithin, TakesAll};
    ghost use Rattle.rpc_record.specs.FramerParts.{HeaderGives, BodyGives};

    /// A framer at the start of a stream.
    pub fn new() -> Self
        ensures { HasRead result [] [] }
    {
        Framer {
            header: [0; 4],
            have: 0,
            left: 0,
            last: false,
            joined: 0,
            begun: false,
            broken: false,
        }
    }

    /// Whether a record has begun that isn't whole: one of its headers has been read, possibly of an empty fragment, or
    /// a part of one.
    pub fn is_inside(&self) -> bool
        ensures value { result ≡ is_inside self.now }
        ensures inside { (content bytes : List ℕ) → HasRead self.now content bytes → IsTrue result ↔ (bytes ≢ []) }
    {
        self.begun || self.have > 0
    }

    /// Continues to read a header. `None`: the header isn't whole yet.
    fn read_header(&mut self, bytes: &[u8]) -> Option<u32>
        requires { length self.old.header + length bytes.now ≤ 4 }
        ensures { HeaderGives result self.old self.new bytes.now }
    {
        put_header(&mut self.header, self.have, bytes);
        let have = self.have + bytes.len();
        if have < 4 {
            self.have = have;
            return None;
        }
        self.have = 0;
        self.begun = true;
        Some(u32::from_be_bytes(self.header))
    }

    /// Continues to read a fragment, with the next bytes of the piece from `from` on.
    fn read_body(&mut self, piece: &[u8], from: usize) -> Step
        requires { from ≤ length piece.now }
        ensures { BodyGives result self.old self.new piece.now from }
    {
        let to = from + self.left.min(piece.len() - from);
        self.joined += to - from;
        self.left -= to - from;
        if self.left > 0 {
            return if from == to {
                Step::NeedMore
            } else {
                Step::Part(from, to)
            };
        }
        if !self.last {
            return Step::Part(from, to);
        }
        self.joined = 0;
        self.begun = false;
        Step::Record(from, to)
    }

    /// Finds the next step in the piece from `at` on. It is a part of the current record, its end, less than either, or
    /// a header that takes the record above the limit. The limit is on the whole record, and is checked at each header.
    /// A broken framer stays broken.
    pub fn feed(&mut self, piece: &[u8], at: usize) -> Step
        requires { at ≤ length piece.now }
        ensures within { IsWithin result piece.now at }
        ensures gives { (content bytes : List ℕ) → HasRead self.old content bytes →
            StepGives result self.new content bytes piece.now at }
        ensures all { TakesAll result self.new piece.now }
        ensures broken { result ≡ Step.Broken ↔ IsTrue self.new.broken }
        ensures stays { IsTrue self.old.broken → (result ≡ Step.Broken) × (self.new ≡ self.old) }
    {
        if self.broken {
            return Step::Broken;
        }
        if self.left > 0 {
            return self.read_body(piece, at);
        }
        let from = at + (4 - self.have).min(piece.len() - at);
        let Some(mark) = self.read_header(&piece[at..from]) else {
            return Step::NeedMore;
        };
        self.last = mark >= LAST;
        let len = (mark % LAST) as usize;
        let room = RECORD_LIMIT - self.joined;
        if len > room {
            self.broken = true;
            return Step::Broken;
        }
        self.left = len;
        self.read_body(piece, from)
    }
}

/// The mark of a record of `len` bytes that is sent as one fragment, which is the last one.
pub fn record_mark(len: usize) -> [u8; 4]
    requires { len ≤ RECORD_LIMIT }
    ensures bytes { result ≡ to_be_bytes w32 (mark true len) }
    ensures one_record { (content : List ℕ) → length content ≡ len → IsRecord content (result ++ content) }
{
    (LAST + len as u32).to_be_bytes()
}

/// A stream is cut into records in exactly one way. The pieces in which it arrives therefore make no difference.
pub fn a_stream_has_one_cut()
    ensures { (stream : List ℕ) (records others : List (List ℕ)) (rest after : List ℕ) → Cuts stream records rest
        → Cuts stream others after
        → IsEnd rest → IsEnd after → (records ≡ others) × (rest ≡ after) }
{}

/// The records of a stream that grows. Its start has none, and new bytes are appended to the rest. A rest that is a
/// record becomes the next record, and a stream that is broken stays broken.
pub fn records_of_a_growing_stream()
    ensures start { Cuts [] [] [] }
    ensures more { (stream rest more : List ℕ) (records : List (List ℕ)) → Cuts stream records rest →
        Cuts (stream ++ more) records (rest ++ more) }
    ensures broken { (bytes more : List ℕ) → Breaks bytes → Breaks (bytes ++ more) }
    ensures next { (stream rest content : List ℕ) (records : List (List ℕ)) → Cuts stream records rest →
        IsRecord content rest → Cuts stream (records ++ content ∷ []) [] }
{}

/// A framer represents the unfinished rest after the last whole record.
pub fn a_framer_has_read_the_rest()
    ensures { (frame : Frame) (content bytes : List ℕ) → HasRead frame content bytes → IsUnfinished bytes }
{}
