//! The room that an entry takes in a log, known before the entry is made.
ghost use Rattle.std.specs.Prelude.{◌≡◌, ◌≤◌, ◌<◌, ◌+◌, ◌^◌, length, min};
ghost use Rattle.log_entries.specs.Entries.{Called, entry_bytes};
ghost use Rattle.log_entries.specs.Entries as specs;

/// Kind, moment, length, at most three bytes of padding, the place of an operation, and the checksum.
const AROUND_CALL: usize = 4 + 12 + 4 + 3 + 8 + 8;

/// Room that is enough for the entry of a call whose record has at most `len` bytes, whatever its other fields are. A
/// server that makes it before a call runs can log the call afterwards.
pub fn call_room(len: usize) -> usize
    ensures enough { (c : Called) → length c.bytes < 2 ^ 32 → length c.bytes ≤ len →
        length (entry_bytes (specs.Call c)) ≤ result }
    ensures few { result ≤ len + 39 }
{
    len.saturating_add(AROUND_CALL)
}

/// Kind, the flag of the text, length, and at most three bytes of padding.
const AROUND_BOOK: usize = 4 + 4 + 4 + 3;

/// Room that is enough for the entry of a book whose text has `len` bytes.
pub(crate) fn book_room(len: usize) -> usize
    ensures { result ≡ min (len + 15) usize.MAX }
{
    len.saturating_add(AROUND_BOOK)
}
