//! A reader that gives zeros without end: each four are the mark of an empty fragment, which isn't a record's last.

use nfs_hub::{Clock, Hub, ServeEnd, serve};
use nfs_types::Moment;
use std::hash::RandomState;
use std::io;
use std::io::{Read, Write};
use std::process::Abort;
use std::test::Fail;

/// Gives zeros, as many as a read has room for.
#[derive(Drop)]
struct Zeros {
    /// How many times `read` was called.
    reads: u64,
}

impl Read for Zeros {
    fn read(&mut self, buf: &mut [u8]) -> io::Result<usize> {
        self.reads += 1;
        buf.fill(0);
        Ok(buf.len())
    }
}

/// A writer that counts its bytes.
#[derive(Drop)]
struct Counted {
    bytes: usize,
}

impl Write for Counted {
    fn write(&mut self, buf: &[u8]) -> io::Result<usize> {
        self.bytes += buf.len();
        Ok(buf.len())
    }

    fn flush(&mut self) -> io::Result<()> {
        Ok(())
    }
}

/// A clock that doesn't advance.
struct Still;

impl Clock for Still {
    fn now(&self) -> Moment {
        Moment {
            seconds: 0,
            nanoseconds: 0,
        }
    }
}

/// Each turn reads once, nothing is answered, and the turns end it.
#[test]
fn zeros_are_read_until_the_turns_are_used_up(rt: HostRuntime) -> Result<(), Fail> {
    for turns in [0u64, 1, 1000] {
        let mut hub = Hub::bare(rt.alloc(), rt.alloc(), RandomState::new(&rt)?)?;
        let mut reader = Zeros { reads: 0 };
        let mut writer = Counted { bytes: 0 };
        let end = serve(&mut hub, &mut reader, &mut writer, &Still, turns);
        assert_eq!(rt; end, ServeEnd::Turns);
        assert_eq!(rt; reader.reads, turns);
        assert_eq!(rt; writer.bytes, 0);
    }
    Ok(())
}
