//! A time, `nfstime4` (RFC 8881, section 3.3).
ghost use Rattle.std.specs.Prelude.{◌≡◌, ◌<◌, ◌+◌, ◌*◌, ◌^◌};

use std::alloc::Allocator;
use xdr_wire::{Full, Spell, Writer};

/// A time since the epoch, `nfstime4` (RFC 8881, section 3.3.1).
#[derive(Clone, Copy, Debug, PartialEq, Eq)]
pub struct Moment {
    /// Whole seconds; negative before the epoch.
    pub seconds: i64,
    /// Nanoseconds to be added to the seconds, below 1,000,000,000.
    pub nanoseconds: u32,
    ghost is_fraction: { nanoseconds < 1000000000 },
}

impl Moment {
    ghost use Rattle.nfs_types.specs.MomentView.{moment_in};

    /// The moment of these seconds and nanoseconds. `None`: the nanoseconds are 1,000,000,000 or more.
    pub fn of(seconds: i64, nanoseconds: u32) -> Option<Moment>
        ensures { result ≡ moment_in (seconds, nanoseconds) }
    {
        if nanoseconds >= 1_000_000_000 {
            return None;
        }
        Some(Moment {
            seconds,
            nanoseconds,
        })
    }
}

impl Spell for Moment {
    ghost use Rattle.std.specs.Prelude.{None};
    ghost use Rattle.nfs_types.specs.Forms.{time};
    ghost use Rattle.nfs_types.specs.MomentView.{moment_value};

    ghost form = { time };

    ghost view = { moment_value };

    ghost normal = { None };

    fn write<A: Allocator>(self, writer: &mut Writer<A>) -> Result<(), Full> {
        let Moment {
            seconds,
            nanoseconds,
        } = self;
        (seconds, nanoseconds).write(writer)
    }
}
