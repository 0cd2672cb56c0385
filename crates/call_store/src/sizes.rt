//! How many bytes parts and records have.
ghost use Rattle.std.specs.Prelude.{◌≡◌, map};
ghost use Rattle.checkpoint.specs.Writing.{size_of};

/// The bytes of all of these, at most 2^64 - 1.
pub(crate) fn size_of(all: &[&[u8]]) -> u64
    ensures { result ≡ size_of (map (λ b. b.now) all.now) }
{
    let mut size = 0u64;
    for bytes in all {
        size = size.saturating_add(bytes.len() as u64);
    }
    size
}
