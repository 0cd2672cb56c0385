//! The owner and the verifier of this run of the client, by which a server distinguishes it from
//! others.
use std::io;
use std::random::RandomSource;
use std::rt::Clock;
use std::time::{SystemTime, UNIX_EPOCH};

/// The first bytes of an owner, which name the program.
const NAME: &[u8; 4] = b"nfsc";

/// The owner of this run (RFC 8881, section 2.4): `nfsc`, and 16 random bytes of the system. No two
/// runs have one owner, even if they start in the same instant, from one process after the other or
/// on several machines.
///
/// An error: the system gives no random bytes.
pub(crate) fn owner<R: RandomSource>(rt: &R) -> io::Result<[u8; 20]> {
    let mut owner = [0; 20];
    owner[..4].copy_from_slice(NAME);
    rt.fill_bytes(&mut owner[4..])?;
    Ok(owner)
}

/// The verifier of this start: the system's time in nanoseconds since the epoch, or zero if the
/// time can't be read.
pub(crate) fn verifier<R: Clock>(rt: &R) -> [u8; 8] {
    let Ok(now) = SystemTime::now(rt) else {
        return [0; 8];
    };
    let Ok(since) = now.duration_since(UNIX_EPOCH) else {
        return [0; 8];
    };
    match u64::try_from(since.as_nanos()) {
        Ok(nanoseconds) => nanoseconds.to_be_bytes(),
        Err(_) => [0; 8],
    }
}
