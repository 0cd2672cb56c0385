//! Serving one connection over a reader and a writer.
ghost use Rattle.std.specs.Prelude.{◌≡◌, ◌≢◌, ◌⊎◌, List, [], true, false, Some, None};
ghost use Rattle.std.specs.Bool.{OnTrue, OnFalse};
ghost use Rattle.std.specs.Io.KnownBytes.{Appends};
ghost use Rattle.nfs_hub.specs.Answer.{Served};
ghost use Rattle.nfs_hub.specs.Machine.{State, Event};
ghost use Rattle.nfs_hub.specs.Hub.{IsHub, IsHistoryOf, broken_at};
ghost use Rattle.nfs_hub.specs.Served.{Serves, Writes};
ghost use Rattle.nfs_hub.specs.internal.Served.{PassGives, TurnsEnd, broken_end, refused_end};
ghost use Rattle.nfs_hub.specs.declared.serving.ServeEnd.TheVariants as end;

use crate::fault::HubFault;
use crate::hub::{ConnId, Hub};
use nfs_types::Moment;
use std::alloc::Allocator;
use std::io::{Read, Write};

/// The most bytes that one turn reads.
const PIECE: usize = 4096;

/// A clock.
pub trait Clock {
    /// The present moment.
    fn now(&self) -> Moment;

    /// The second of a clock that only goes forward, from any start. The default is the second of
    /// the present moment, at least 0.
    fn second(&self) -> u64 {
        self.now().seconds.max(0) as u64
    }
}

/// The end of serving a connection.
#[derive(Clone, Copy, Debug, PartialEq, Eq)]
pub enum ServeEnd {
    /// The input ended after a complete record.
    Ended = 1,
    /// The input ended inside a record.
    Inside = 2,
    /// The stream or a record of it broke the connection.
    Broken = 3,
    /// An allocation failed, for the connection or for a piece.
    Memory = 4,
    /// The limit of open connections is reached, or no connection number is left.
    TooMany = 5,
    /// The reader failed.
    Read = 6,
    /// The writer failed, or took nothing. It isn't known how much it took before.
    Write = 7,
    /// The turns are used up.
    Turns = 8,
}

/// Writes all of the bytes. `false`: the writer failed or took nothing.
fn write_out<W: Write>(writer: &mut W, bytes: &[u8]) -> bool
    ensures all { OnTrue result (Appends (W.contents writer.old) (W.contents writer.new) bytes.now) }
    ensures prefix { OnFalse result (Writes end.Write (W.contents writer.old) (W.contents writer.new) bytes.now) }
{
    let mut done = 0;
    while done < bytes.len() {
        let Ok(n) = writer.write(&bytes[done..]) else {
            return false;
        };
        if n == 0 {
            return false;
        }
        done += n;
    }
    true
}

/// The end of serving a connection that a piece broke.
fn broken_by(fault: HubFault) -> ServeEnd
    ensures { result ≡ broken_end fault }
{
    match fault {
        HubFault::Broken => ServeEnd::Broken,
        HubFault::Memory | HubFault::NoSuch | HubFault::TooMany | HubFault::Exhausted => {
            ServeEnd::Memory
        }
    }
}

/// Feeds a piece, and then writes the pending bytes. `None`: the connection can continue.
fn pass<A: Allocator + Copy, W: Write>(
    hub: &mut Hub<A>,
    conn: ConnId,
    piece: &[u8],
    now: Moment,
    writer: &mut W,
) -> Option<ServeEnd>
    requires open { broken_at hub.old conn ≡ Some false }
    ensures { PassGives result conn (piece.now, now) (record { hub = hub.old; held = W.contents writer.old })
        (record { hub = hub.new; held = W.contents writer.new }) }
{
    let fed = hub.feed(conn, piece, now);
    let pending = hub.pending(conn).unwrap_or(&[]);
    let count = pending.len();
    let written = write_out(writer, pending);
    let _ = hub.consume(conn, count);
    if !written {
        return Some(ServeEnd::Write);
    }
    match fed {
        Ok(()) => None,
        Err(fault) => Some(broken_by(fault)),
    }
}

/// Serves an open connection for at most `turns` turns.
fn turn_by_turn<A: Allocator + Copy, R: Read, W: Write, C: Clock>(
    hub: &mut Hub<A>,
    conn: ConnId,
    reader: &mut R,
    writer: &mut W,
    clock: &C,
    turns: u64,
) -> ServeEnd
    requires open { broken_at hub.old conn ≡ Some false }
    ensures { (s : State) → IsHub hub.old s →
        TurnsEnd conn turns result s
        (record { hub = hub.old; left = R.remaining reader.old; held = W.contents writer.old })
        (record { hub = hub.new; left = R.remaining reader.new; held = W.contents writer.new }) }
{
    for turn in 0..turns {
        let mut buf = [0u8; PIECE];
        let Ok(n) = reader.read(&mut buf) else {
            return ServeEnd::Read;
        };
        if n == 0 {
            return if hub.is_inside(conn) {
                ServeEnd::Inside
            } else {
                ServeEnd::Ended
            };
        }
        if let Some(end) = pass(hub, conn, &buf[..n], clock.now(), writer) {
            return end;
        }
    }
    ServeEnd::Turns
}

/// The end of serving a connection that was refused.
fn refused(fault: HubFault) -> ServeEnd
    ensures { result ≡ refused_end fault }
{
    match fault {
        HubFault::Memory => ServeEnd::Memory,
        HubFault::TooMany | HubFault::Exhausted | HubFault::NoSuch | HubFault::Broken => {
            ServeEnd::TooMany
        }
    }
}

/// Opens a connection. Each turn reads at most 4,096 bytes, feeds them at the clock's moment, and
/// then writes the pending bytes, even if the piece broke the connection. It takes at most `turns`
/// turns. At the end it closes the connection. Returns how serving ended. If the connection was
/// refused, nothing was read. If the writer failed, it took a prefix of the bytes to be written.
pub fn serve<A: Allocator + Copy, R: Read, W: Write, C: Clock>(
    hub: &mut Hub<A>,
    reader: &mut R,
    writer: &mut W,
    clock: &C,
    turns: u64,
) -> ServeEnd
    ensures { (first : Served) (events : List Event) → IsHistoryOf first events hub.old →
        Serves first result turns events
        (record { hub = hub.old; left = R.remaining reader.old; held = W.contents writer.old })
        (record { hub = hub.new; left = R.remaining reader.new; held = W.contents writer.new }) }
{
    let conn = match hub.connect() {
        Ok(conn) => conn,
        Err(fault) => return refused(fault),
    };
    let end = turn_by_turn(hub, conn, reader, writer, clock, turns);
    let _ = hub.close(conn);
    end
}
