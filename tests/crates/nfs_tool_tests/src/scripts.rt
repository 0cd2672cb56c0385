//! Scripts over a hub with a root alone, in which a read or a write fails, or the script never ends.

use crate::plain::{Deed, changed_at, root_alone, run_over, run_script};
use nfs_hub::Hub;
use nfs_tool::{Texts, ToolFault};
use std::alloc::Global;
use std::hash::RandomState;
use std::io::{self, ErrorKind, Read, Write};
use std::process::Abort;
use std::test::Fail;

/// Gives these bytes, at most five a read. The read of this number fails.
#[derive(Drop)]
struct Pieces<'a> {
    bytes: &'a [u8],
    reads: u32,
}

impl Read for Pieces<'_> {
    fn read(&mut self, buf: &mut [u8]) -> io::Result<usize> {
        if self.reads == 0 {
            return Err(io::Error::from(ErrorKind::Other));
        }
        self.reads -= 1;
        let n = self.bytes.len().min(buf.len()).min(5);
        let (prefix, rest) = self.bytes.split_at(n);
        buf[..n].copy_from_slice(prefix);
        self.bytes = rest;
        Ok(n)
    }
}

/// Takes these bytes and no others, at most seven a write. The write of this number fails.
#[derive(Drop)]
struct Wanted<'a> {
    bytes: &'a [u8],
    writes: u32,
}

impl Write for Wanted<'_> {
    fn write(&mut self, buf: &[u8]) -> io::Result<usize> {
        if self.writes == 0 {
            return Err(io::Error::from(ErrorKind::Other));
        }
        self.writes -= 1;
        let n = self.bytes.len().min(buf.len()).min(7);
        let (prefix, rest) = self.bytes.split_at(n);
        if prefix != &buf[..n] {
            return Ok(0);
        }
        self.bytes = rest;
        Ok(n)
    }

    fn flush(&mut self) -> io::Result<()> {
        Ok(())
    }
}

/// A book whose root has a mode above the range.
const RANGE: &str = "domain = 'example.org'
root_owner = 0
root_group = 0
root_mode = 4096
users = {}
groups = {}
";

/// The text `range` alone.
#[derive(Drop)]
struct Range {
    alloc: Global,
}

impl Texts for Range {
    fn text(&mut self, name: &str) -> Option<String> {
        if name == "range" {
            return String::from_str(self.alloc, RANGE).ok();
        }
        None
    }
}

/// A script, and its expected output.
type Text = (&'static [u8], &'static [u8]);

/// The end of a script after which `left` bytes of its expected output are left. `Reply`: it printed less.
fn end_of(outcome: Result<bool, ToolFault>, left: usize) -> Result<bool, ToolFault> {
    match outcome {
        Ok(_) if left > 0 => Err(ToolFault::Reply),
        other => other,
    }
}

fn played_over(
    alloc: Global,
    hub: &mut Hub,
    (bytes, wants): Text,
    reads: u32,
    writes: u32,
) -> Result<bool, ToolFault> {
    let mut reader = Pieces { bytes, reads };
    let mut writer = Wanted {
        bytes: wants,
        writes,
    };
    let outcome = run_script(alloc, hub, &mut Range { alloc }, &mut reader, &mut writer);
    end_of(outcome, writer.bytes.len())
}

/// A script, how many of its reads and writes succeed, and its end.
#[derive(Clone, Copy)]
struct Play {
    alloc: Global,
    text: Text,
    reads: u32,
    writes: u32,
    end: Result<bool, ToolFault>,
    /// The second of the last change of object 2 at the end.
    changed: Option<i64>,
}

impl Deed for Play {
    fn run(&mut self, hub: &mut Hub) {
        self.end = played_over(self.alloc, hub, self.text, self.reads, self.writes);
        self.changed = changed_at(hub, 2);
    }
}

/// The end of a script over a new hub, if this many reads and writes succeed, and the second of the last change of
/// object 2.
fn played_and_changed(
    alloc: Global,
    hasher: RandomState,
    text: Text,
    reads: u32,
    writes: u32,
) -> (Result<bool, ToolFault>, Option<i64>) {
    let mut play = Play {
        alloc,
        text,
        reads,
        writes,
        end: Err(ToolFault::Memory),
        changed: None,
    };
    match run_over(root_alone(alloc, hasher), &mut play) {
        Ok(()) => (play.end, play.changed),
        Err(_) => (Err(ToolFault::Memory), None),
    }
}

/// The end of a script over a new hub, if this many reads and writes succeed.
fn played(
    alloc: Global,
    hasher: RandomState,
    text: Text,
    reads: u32,
    writes: u32,
) -> Result<bool, ToolFault> {
    played_and_changed(alloc, hasher, text, reads, writes).0
}

/// One read gives the end of an empty script, and three writes are of the trail.
const NOTHING: Text = (b"", b"trail 0\n");

#[test]
fn nothing_has_no_trail(rt: HostRuntime) -> Result<(), Fail> {
    let hasher = RandomState::new(&rt)?;
    assert!(rt; played(rt.alloc(), hasher, NOTHING, 1, 3) == Ok(true));
    Ok(())
}

/// A file is put by the third line, and read by the fourth.
const THIRD: Text = (
    b"# a comment\n\nas 0 0 put /f hi\nas 0 0 cat /f\n",
    b"ok\nhi\ntrail 0\n",
);

/// A line's moment is its number among all lines.
#[test]
fn each_line_has_its_moment(rt: HostRuntime) -> Result<(), Fail> {
    let seen = played_and_changed(rt.alloc(), RandomState::new(&rt)?, THIRD, 100, 100);
    assert!(rt; seen == (Ok(true), Some(3)));
    Ok(())
}

/// A file is put, listed, and refused to another caller; then comes a line without a command. These are 49 bytes.
const SHORT: Text = (
    b"as 0 0 put /f hi\nas 0 0 ls /\nas 7 7 cat /f\nas ...",
    b"ok\n- 0600 0 0 2 f\nrefused READ ACCESS\nbad line\ntrail 1\n\
    DENY uid=7 op=READ obj=2 mask=00000001 missing=00000001\n",
);

/// The end of a script that needs `needed` reads or writes, if `given` of them succeed.
fn end_within(given: u32, needed: u32, fault: ToolFault) -> Result<bool, ToolFault> {
    if given < needed {
        Err(fault)
    } else {
        Ok(false)
    }
}

/// Checks that a script ends with `Read` if fewer than `needed` reads succeed.
fn see_reads(rt: &impl Abort, alloc: Global, hasher: RandomState, text: Text, needed: u32) {
    for reads in 0..=needed {
        let wanted = end_within(reads, needed, ToolFault::Read);
        assert!(rt;
            played(alloc, hasher, text, reads, 100) == wanted,
            "{reads} reads"
        );
    }
}

/// Checks that a script ends with `Write` if fewer than `needed` writes succeed.
fn see_writes(rt: &impl Abort, alloc: Global, hasher: RandomState, text: Text, needed: u32) {
    for writes in 0..=needed {
        let wanted = end_within(writes, needed, ToolFault::Write);
        assert!(rt;
            played(alloc, hasher, text, 100, writes) == wanted,
            "{writes} writes"
        );
    }
}

/// Ten reads give the script, and the eleventh read its end.
#[test]
fn each_read_fails(rt: HostRuntime) -> Result<(), Fail> {
    see_reads(&rt, rt.alloc(), RandomState::new(&rt)?, SHORT, 11);
    Ok(())
}

/// `ok` is one write. Three writes are of `- 0600 0 0 2 f`, three and one of the refusal, two and one of `bad line`,
/// one, one and one of the trail's total, and eight and one of its line.
#[test]
fn each_write_fails(rt: HostRuntime) -> Result<(), Fail> {
    see_writes(&rt, rt.alloc(), RandomState::new(&rt)?, SHORT, 23);
    Ok(())
}

/// Of `book 3` one write has the word, one the number, and one the newline; then come the word, the number and the
/// newline of the trail.
const FAULT: Text = (b"reload range\n", b"book 3\ntrail 0\n");

#[test]
fn each_write_of_a_fault_fails(rt: HostRuntime) -> Result<(), Fail> {
    see_writes(&rt, rt.alloc(), RandomState::new(&rt)?, FAULT, 6);
    Ok(())
}

/// Gives one byte of a comment at each read, without end.
#[derive(Drop)]
struct Endless;

impl Read for Endless {
    fn read(&mut self, buf: &mut [u8]) -> io::Result<usize> {
        match buf.first_mut() {
            Some(byte) => {
                *byte = b'#';
                Ok(1)
            }
            None => Ok(0),
        }
    }
}

fn endless_over(alloc: Global, hub: &mut Hub) -> Result<bool, ToolFault> {
    let mut writer = Wanted {
        bytes: b"",
        writes: 0,
    };
    run_script(alloc, hub, &mut Range { alloc }, &mut Endless, &mut writer)
}

/// The script that never ends.
#[derive(Clone, Copy)]
struct EndlessPlay {
    alloc: Global,
    end: Result<bool, ToolFault>,
}

impl Deed for EndlessPlay {
    fn run(&mut self, hub: &mut Hub) {
        self.end = endless_over(self.alloc, hub);
    }
}

#[test]
fn an_endless_script_ends(rt: HostRuntime) -> Result<(), Fail> {
    let alloc = rt.alloc();
    let mut play = EndlessPlay {
        alloc,
        end: Ok(true),
    };
    run_over(root_alone(alloc, RandomState::new(&rt)?), &mut play)?;
    assert!(rt; play.end == Err(ToolFault::Read));
    Ok(())
}

/// Gives a newline at each of a number of reads, and then the end.
#[derive(Drop)]
struct Newlines {
    left: u32,
}

impl Read for Newlines {
    fn read(&mut self, buf: &mut [u8]) -> io::Result<usize> {
        match buf.first_mut() {
            Some(byte) if self.left > 0 => {
                self.left -= 1;
                *byte = b'\n';
                Ok(1)
            }
            _ => Ok(0),
        }
    }
}

/// The end of a script, and how many of its lines were left then.
type Left = (Result<bool, ToolFault>, u32);

fn newlines_over(alloc: Global, hub: &mut Hub, lines: u32) -> Left {
    let mut reader = Newlines { left: lines };
    let mut writer = Wanted {
        bytes: b"trail 0\n",
        writes: 3,
    };
    let outcome = run_script(alloc, hub, &mut Range { alloc }, &mut reader, &mut writer);
    (end_of(outcome, writer.bytes.len()), reader.left)
}

/// A script of a number of empty lines, each a read.
#[derive(Clone, Copy)]
struct NewlinesPlay {
    alloc: Global,
    lines: u32,
    seen: Left,
}

impl Deed for NewlinesPlay {
    fn run(&mut self, hub: &mut Hub) {
        self.seen = newlines_over(self.alloc, hub, self.lines);
    }
}

/// A script may take 1,000,000 reads, and the last one gives its end. So at most 999,999 reads give a line, and no read
/// follows the last one.
#[test]
fn the_last_read_is_the_end(rt: HostRuntime) -> Result<(), Fail> {
    let (alloc, hasher) = (rt.alloc(), RandomState::new(&rt)?);
    for (lines, wanted) in [
        (999_999, (Ok(true), 0)),
        (1_000_000, (Err(ToolFault::Read), 0)),
        (1_000_001, (Err(ToolFault::Read), 1)),
    ] {
        let seen = (Ok(false), lines);
        let mut play = NewlinesPlay { alloc, lines, seen };
        run_over(root_alone(alloc, hasher), &mut play)?;
        assert!(rt; play.seen == wanted, "{lines} lines");
    }
    Ok(())
}
