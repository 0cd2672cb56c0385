//! Laws of checkpoints: each is the contract of a function with an empty body.
ghost use Rattle.checkpoint.specs.Counting.{CountsLaw, NewLaw};
ghost use Rattle.checkpoint.specs.Covering.{CoversLaw};
ghost use Rattle.checkpoint.specs.Holds.{HoldsOneLaw};

/// Parts hold at most one state: what is read is what was written.
pub fn what_a_checkpoint_holds_is_one()
    ensures { HoldsOneLaw }
{}

/// A server that is restored over a checkpoint's state covers the server that wrote it: they are
/// equal, except that slots may lag, and each slot caches the same call (RFC 8881, section
/// 2.10.6.5).
///
/// The server's sessions persist over a restart, and its book has an epoch, from 1 on. Records and
/// sessions are in order on both sides.
pub fn what_is_kept_covers()
    ensures { CoversLaw }
{}

/// After a checkpoint is written its log is active, with exactly its parts and no record yet. After
/// a refusal the old log is active. If the disk failed, the old log is active, or either may be.
pub fn a_written_checkpoint_counts()
    ensures { CountsLaw }
{}

/// Whatever the result of a checkpoint, no frame of a later generation than the last begun one was
/// ever written.
pub fn a_checkpoint_leaves_the_next_generation_new()
    ensures { NewLaw }
{}
