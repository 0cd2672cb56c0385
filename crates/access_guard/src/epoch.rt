//! The epochs of the book.
ghost use Rattle.std.specs.Prelude.{◌≡◌};
ghost use Rattle.access_guard.specs.Epochs as specs;

/// The epoch of the first book.
pub const FIRST_EPOCH: u64 = 1;

/// The epoch after this one. `None`: none follows from 2^63 on.
pub fn next_epoch(epoch: u64) -> Option<u64>
    ensures { result ≡ specs.next_epoch epoch }
{
    (epoch < 1 << 63).then(|| epoch + 1)
}
