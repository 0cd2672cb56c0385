//! The profiles, which set the server's limits.
ghost use Rattle.std.specs.Prelude.{◌≡◌, option_map};
ghost use Rattle.nfsd_options.specs.Profiles.{ReadsProfile, profile_named};

use crate::values::wrong_value;
use clap::Error;
use std::alloc::Global;

/// A profile, which sets the server's limits.
#[derive(Clone, Copy, Debug, PartialEq, Eq)]
pub enum Profile {
    /// `standard`: 16 connections at a time, 16,384 objects, and files of at most 1 MiB.
    Standard,
    /// `office`: 256 connections at a time, 1,048,576 objects, and files of at most 1 TiB.
    Office,
}

/// The profile of a name. `None`: no profile has it.
#[tactic(auto, unfolding(crate::specs::Profiles::profile_named))]
fn profile_named(name: &str) -> Option<Profile>
    ensures { result ≡ profile_named name.now }
{
    if name == "standard" {
        Some(Profile::Standard)
    } else if name == "office" {
        Some(Profile::Office)
    } else {
        None
    }
}

/// The profile of the name that is given, or the standard profile if none is. An error is that of a name that no
/// profile has, or of a failed allocation.
pub(crate) fn read_profile(alloc: Global, name: Option<&str>) -> Result<Profile, Error>
    ensures { ReadsProfile (option_map (λ n. n.now) name.entry) result }
{
    let Some(name) = name else {
        return Ok(Profile::Standard);
    };
    match profile_named(name) {
        Some(profile) => Ok(profile),
        None => {
            let why = "it is neither 'standard' nor 'office'";
            Err(wrong_value(alloc, "--profile <NAME>", name, &why)?)
        }
    }
}
