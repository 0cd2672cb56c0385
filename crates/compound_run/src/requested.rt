//! The attributes that GETATTR and READDIR request (RFC 8881, sections 5.5, 18.7 and 18.23).
ghost use Rattle.std.specs.Prelude.{◌≡◌, None, Some, MatchResult};
ghost use Rattle.nfs_types.specs.Views.{bitmap_value};
ghost use Rattle.compound_run.specs.Requested as specs;

use nfs_types::{Bitmap, Status};

/// The requested attributes that the profile supports; the others are ignored.
pub(crate) fn requested(times: bool, asked: &Bitmap) -> Bitmap
    ensures { bitmap_value result ≡ specs.requested_in times (bitmap_value asked.now) }
{
    asked.common(&Bitmap::supported(times))
}

/// An attribute that can only be set can't be requested.
pub(crate) fn check_readable(set: &Bitmap) -> Result<(), Status>
    ensures { MatchResult result (λ done. specs.set_only_fault (bitmap_value set.now) ≡ None)
        (λ status. specs.set_only_fault (bitmap_value set.now) ≡ Some status) }
{
    if set.has_set_only() {
        return Err(Status::Inval);
    }
    Ok(())
}
