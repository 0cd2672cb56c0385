//! The limits of the options' profile, and the text about a store of another profile.
ghost use Rattle.std.specs.Prelude.{◌≡◌};
ghost use Rattle.nfsd.specs.Profiles.{limits_by};

use nfs_types::Limits;
use nfsd_options::Profile;
use std::fmt;
use std::fmt::{Display, Formatter};

/// The limits of a profile.
pub(crate) fn limits_of(profile: Profile) -> Limits
    ensures { result ≡ limits_by profile }
{
    match profile {
        Profile::Standard => Limits::standard(),
        Profile::Office => Limits::office(),
    }
}

/// A store is of another profile than this one, which is that of the options. The text follows the store's path.
#[derive(Clone, Copy)]
pub(crate) struct NotOf(pub(crate) Profile);

impl Display for NotOf {
    fn fmt<W: fmt::Write>(&self, f: &mut Formatter<W>) -> fmt::Result {
        let NotOf(profile) = *self;
        f.write_str(match profile {
            Profile::Standard => {
                ": it is a store of the office profile; start with --profile office"
            }
            Profile::Office => {
                ": it is a store of the standard profile; start without --profile office, or with another folder"
            }
        })
    }
}
