//! The end of the log, and heads of later frames after it.
ghost use Rattle.std.specs.Prelude.{◌≡◌, MatchBool};
ghost use Rattle.store_journal.specs.Files.{Later, LaterAt, is_ended};
ghost use Rattle.store_journal.specs.internal.Files.{begins_frames};

use crate::checksum::Identity;
use crate::current::VERSION;
use crate::frames::{Place, head_at};
use xdr_wire::Reader;

/// Whether the bytes begin with the end of the log: eight zero bytes.
#[tactic(auto, unfolding(crate::specs::Files::is_ended))]
pub fn is_ended(rest: &[u8]) -> bool
    ensures { result ≡ is_ended rest.now }
{
    match Reader::new(rest).u64() {
        Ok(version) => version == 0,
        Err(_) => false,
    }
}

/// Whether the bytes begin with the version of the form and this generation.
#[tactic(auto, unfolding(crate::specs::internal::Files::begins_frames))]
fn begins_frames(generation: u64, bytes: &[u8]) -> bool
    ensures { result ≡ begins_frames generation bytes.now }
{
    let mut reader = Reader::new(bytes);
    let Ok(version) = reader.u64() else {
        return false;
    };
    if version != VERSION {
        return false;
    }
    match reader.u64() {
        Ok(found) => found == generation,
        Err(_) => false,
    }
}

/// Whether the bytes begin with the head of a later frame of the same generation. No checksum is computed if the
/// version or the generation differs.
fn later_at(identity: Identity, place: Place, bytes: &[u8]) -> bool
    ensures { MatchBool result (LaterAt identity place bytes.now) (LaterAt identity place bytes.now → ⊥) }
{
    if !begins_frames(place.generation, bytes) {
        return false;
    }
    let Some(head) = head_at(identity, bytes) else {
        return false;
    };
    head.version == VERSION && head.generation == place.generation && head.number > place.number
}

/// Whether the head of a later frame is at a multiple of four bytes.
pub(crate) fn is_followed(identity: Identity, place: Place, rest: &[u8]) -> bool
    ensures { MatchBool result (Later identity place rest.now) (Later identity place rest.now → ⊥) }
{
    for k in 0..rest.len() / 4 {
        let (_, bytes) = rest.split_at(4 * k);
        if later_at(identity, place, bytes) {
            return true;
        }
    }
    false
}
