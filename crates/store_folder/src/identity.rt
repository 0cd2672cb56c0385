//! The identity of a new store.
use std::io;
use std::random::RandomSource;
use store_journal::Identity;

/// Draws an identity: 128 bits of the system's random source. Without it no client can make valid checksums.
pub(crate) fn draw_identity(rt: &impl RandomSource) -> io::Result<Identity> {
    let mut high = [0u8; 8];
    let mut low = [0u8; 8];
    rt.fill_bytes(&mut high)?;
    rt.fill_bytes(&mut low)?;
    Ok(Identity {
        high: u64::from_be_bytes(high),
        low: u64::from_be_bytes(low),
    })
}
