//! The checksum of results.
ghost use Rattle.std.specs.Prelude.{◌≡◌};
ghost use Rattle.log_entries.specs.Checksum as specs;

use std::hash::{DefaultHasher, Hasher};

/// The checksum of a call's results: SipHash-1-3 under the key 0. A replay compares it, to see that it answers as the
/// call was answered.
#[tactic(auto, unfolding(crate::specs::Checksum::results_checksum))]
pub fn results_checksum(results: &[u8]) -> u64
    ensures { result ≡ specs.results_checksum results.now }
{
    let mut hasher = DefaultHasher::new();
    hasher.write(results);
    hasher.finish()
}
