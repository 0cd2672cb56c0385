//! The paths of a folder's parts.
ghost use Rattle.std.specs.Prelude.{◌≡◌, MatchResult};

use crate::fault::{FolderFault, Part};
use std::alloc::Allocator;

/// The paths that replacing CURRENT needs. They are made as the folder is opened. Replacing CURRENT then allocates no
/// memory.
#[derive(Drop)]
pub(crate) struct Names<A: Allocator> {
    pub current: String<A>,
    pub fresh: String<A>,
    pub spare: String<A>,
}

/// The path of a part. The only error is a failed allocation.
pub(crate) fn path_of<R: Alloc>(rt: &R, path: &str, part: Part) -> Result<String<R::A>, FolderFault>
    ensures { MatchResult result (λ name. Unit {0}) (λ fault. fault ≡ FolderFault.Memory) }
{
    match format!(in rt.alloc(); "{path}{part}") {
        Ok(name) => Ok(name),
        Err(_) => Err(FolderFault::Memory),
    }
}

impl<A: Allocator> Names<A> {
    /// The paths in a folder. The only error is a failed allocation.
    pub(crate) fn new<R: Alloc<A = A>>(rt: &R, path: &str) -> Result<Self, FolderFault>
        ensures { MatchResult result (λ names. Unit {0}) (λ fault. fault ≡ FolderFault.Memory) }
    {
        Ok(Names {
            current: path_of(rt, path, Part::Current)?,
            fresh: path_of(rt, path, Part::Fresh)?,
            spare: path_of(rt, path, Part::Spare)?,
        })
    }
}
