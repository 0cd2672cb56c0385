//! A time that an operation sets, `settime4` (RFC 8881, section 3.3.3).
ghost use Rattle.std.specs.Prelude.{◌≡◌, option_map};
ghost use Rattle.nfs_types.specs.Times.{sent_time, taken_time};

use crate::moment::Moment;
use crate::status::Status;
use std::alloc::Allocator;
use xdr_wire::{Full, Reader, Spell, Wire, Writer, XdrFault};

/// A time that an operation sets.
#[derive(Clone, Copy)]
pub enum SetTime {
    /// The server's time.
    Server,
    /// A time of the client.
    Client(Moment),
}

/// A time as it is sent: its nanoseconds aren't checked.
#[derive(Clone, Copy)]
pub enum SentTime {
    /// SET_TO_SERVER_TIME4.
    Server,
    /// SET_TO_CLIENT_TIME4: seconds and nanoseconds.
    Client(i64, u32),
}

impl Spell for SentTime {
    ghost use Rattle.std.specs.Prelude.{None};
    ghost use Rattle.nfs_types.specs.Times.{settime, sent_time};

    ghost form = { settime };

    ghost view = { sent_time };

    ghost normal = { None };

    fn write<A: Allocator>(self, writer: &mut Writer<A>) -> Result<(), Full> {
        match self {
            SentTime::Server => (0u32, ()).write(writer),
            SentTime::Client(seconds, nanoseconds) => {
                (1u32, (seconds, nanoseconds)).write(writer)
            }
        }
    }
}

impl<'a> Wire<'a> for SentTime {
    fn read(reader: &mut Reader<'a>) -> Result<Self, XdrFault> {
        let mut ahead = reader.fork();
        let time = match ahead.u32()? {
            0 => SentTime::Server,
            1 => {
                let (seconds, nanoseconds) = Wire::read(&mut ahead)?;
                SentTime::Client(seconds, nanoseconds)
            }
            _ => return Err(XdrFault::BadChoice),
        };
        *reader = ahead;
        Ok(time)
    }
}

/// The time that is set, if one was sent. `Inval`: it has 1,000,000,000 nanoseconds or more (RFC 8881, section 3.3.1).
pub(crate) fn time_of(sent: Option<SentTime>) -> Result<Option<SetTime>, Status>
    ensures { result ≡ taken_time (option_map sent_time sent) }
{
    let Some(sent) = sent else {
        return Ok(None);
    };
    match sent {
        SentTime::Server => Ok(Some(SetTime::Server)),
        SentTime::Client(seconds, nanoseconds) => {
            let Some(moment) = Moment::of(seconds, nanoseconds) else {
                return Err(Status::Inval);
            };
            Ok(Some(SetTime::Client(moment)))
        }
    }
}
