//! Calls that a server answers.

use crate::digits::bytes_in;
use crate::split_word;
use compound_run::{Args, MAX_RESULTS, RunEnd, Server};
use nfs_types::Moment;
use rpc_record::Caller as Identity;
use std::alloc::{Allocator, Global};
use std::test::Fail;
use xdr_wire::Writer;

/// A server, and the writer of its results, which has room for all of them.
#[derive(Drop)]
pub struct Site<A: Allocator + Copy> {
    pub server: Server<A>,
    pub out: Writer<A>,
}

/// A caller: the uid, the gid, and one further group.
type Caller = (u32, u32, u32);

/// A call: its caller, its second, the bytes of its record, and its arguments in hexadecimal digits.
#[derive(Clone, Copy)]
struct Call<'a> {
    who: Caller,
    second: i64,
    record_len: usize,
    digits: &'a str,
}

/// The caller `UID GID GROUP`, and the words after it.
fn caller_in(words: &str) -> Option<(Caller, &str)> {
    let (uid, rest) = split_word(words);
    let (gid, rest) = split_word(rest);
    let (group, rest) = split_word(rest);
    let who = (uid.parse().ok()?, gid.parse().ok()?, group.parse().ok()?);
    Some((who, rest))
}

/// `UID GID GROUP SECOND LENGTH ARGUMENTS`.
fn call_in(words: &str) -> Option<Call<'_>> {
    let (who, rest) = caller_in(words)?;
    let (second, rest) = split_word(rest);
    let (record_len, digits) = split_word(rest);
    Some(Call {
        who,
        second: second.parse().ok()?,
        record_len: record_len.parse().ok()?,
        digits,
    })
}

/// Makes a call without sessions.
fn run_bare<A: Allocator + Copy>(
    site: &mut Site<A>,
    who: &Identity,
    now: Moment,
    args: Args<'_>,
) -> Option<RunEnd> {
    if site.out.room() < MAX_RESULTS {
        return None;
    }
    Some(site.server.run_bare(args, who, now, &mut site.out))
}

/// Makes a call with sessions, in a record of at least the length of the arguments.
fn run<A: Allocator + Copy>(
    site: &mut Site<A>,
    who: &Identity,
    now: Moment,
    args: Args<'_>,
) -> Option<RunEnd> {
    let Args { bytes, record_len } = args;
    let record_len = record_len.max(bytes.len());
    if site.out.room() < MAX_RESULTS {
        return None;
    }
    Some(
        site.server
            .run(Args { bytes, record_len }, who, now, &mut site.out),
    )
}

/// Makes a call of these arguments, whose results are in the writer then.
fn make<A: Allocator + Copy>(
    site: &mut Site<A>,
    in_session: bool,
    call: Call<'_>,
    bytes: &[u8],
) -> Option<RunEnd> {
    let (uid, gid, group) = call.who;
    let who = Identity::new(uid, gid, &[group]);
    let now = Moment {
        seconds: call.second,
        nanoseconds: 0,
    };
    let args = Args {
        bytes,
        record_len: call.record_len.max(bytes.len()),
    };
    site.out.truncate(0);
    if in_session {
        run(site, &who, now, args)
    } else {
        run_bare(site, &who, now, args)
    }
}

/// The text of a call's outcome.
fn printed<A: Allocator + Copy>(
    alloc: Global,
    site: &Site<A>,
    end: Option<RunEnd>,
) -> Result<String, Fail> {
    match end {
        Some(RunEnd::Replied) => Ok(hex::encode(alloc, site.out.bytes())?),
        Some(RunEnd::Garbage) => Ok(String::from_str(alloc, "garbage")?),
        None => Err(Fail::new("no room for results")),
    }
}

/// `call ..`, or `session ..` for a call with sessions: the results in hexadecimal digits, or `garbage`.
pub fn run_call<A: Allocator + Copy>(
    alloc: Global,
    site: &mut Site<A>,
    in_session: bool,
    words: &str,
) -> Result<String, Fail> {
    let Some(call) = call_in(words) else {
        return Err(Fail::new("no call"));
    };
    let bytes = bytes_in(alloc, call.digits)?;
    let end = make(site, in_session, call, &bytes);
    printed(alloc, site, end)
}
