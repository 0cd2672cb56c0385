//! The checksums of frames and of CURRENT.
ghost use Rattle.std.specs.Prelude.{◌≡◌};
ghost use Rattle.store_journal.specs.Checksum.{checksum, head_checksum, current_checksum};

use crate::current::CurrentForm;
use crate::head::Head;
use std::hash::{DefaultHasher, Hasher};

/// The identity of a store: 128 bits, drawn once. Only someone who knows it can make valid checksums.
#[derive(Clone, Copy, Debug, PartialEq, Eq)]
pub struct Identity {
    /// The 64 high bits.
    pub high: u64,
    /// The 64 low bits.
    pub low: u64,
}

/// The checksum of bytes.
#[tactic(auto, unfolding(crate::specs::Checksum::checksum))]
pub(crate) fn checksum_of(identity: Identity, bytes: &[u8]) -> u64
    ensures { result ≡ checksum identity bytes.now }
{
    let mut hasher = DefaultHasher::new();
    hasher.write(&identity.high.to_le_bytes());
    hasher.write(&identity.low.to_le_bytes());
    hasher.write(bytes);
    hasher.finish()
}

/// The checksum of a head.
#[tactic(auto, unfolding(crate::specs::Checksum::head_checksum))]
pub(crate) fn head_checksum_of(identity: Identity, head: Head) -> u64
    ensures { result ≡ head_checksum identity head }
{
    let mut hasher = DefaultHasher::new();
    hasher.write(&identity.high.to_le_bytes());
    hasher.write(&identity.low.to_le_bytes());
    hasher.write(&head.version.to_le_bytes());
    hasher.write(&head.generation.to_le_bytes());
    hasher.write(&head.number.to_le_bytes());
    hasher.write(&head.before.to_le_bytes());
    hasher.write(&head.kind.to_le_bytes());
    hasher.write(&head.length.to_le_bytes());
    hasher.write(&head.body.to_le_bytes());
    hasher.finish()
}

/// The checksum of CURRENT.
#[tactic(auto, unfolding(crate::specs::Checksum::current_checksum))]
pub(crate) fn current_checksum_of(form: CurrentForm) -> u64
    ensures { result ≡ current_checksum form }
{
    let mut hasher = DefaultHasher::new();
    hasher.write(&form.high.to_le_bytes());
    hasher.write(&form.low.to_le_bytes());
    hasher.write(&form.version.to_le_bytes());
    hasher.write(&form.generation.to_le_bytes());
    hasher.write(&form.begun.to_le_bytes());
    hasher.write(&form.slot.to_le_bytes());
    hasher.write(&form.machine.to_le_bytes());
    hasher.finish()
}
