//! Streams of records, in every cut.

use crate::given::bytes_of;
use crate::records::cases::{Case, cases};
use crate::records::connection::Connection;
use crate::records::words::bytes_of_lookup;
use rpc_record::{Framer, RECORD_LIMIT, Step};
use std::alloc::{AllocError, Global};
use std::process::Abort;

/// Feeds the stream in pieces of `cut` bytes, until it breaks.
fn feed_in_pieces(
    alloc: Global,
    connection: &mut Connection,
    stream: &[u8],
    cut: usize,
) -> Result<(), AllocError> {
    if cut == 0 {
        return Ok(());
    }
    for piece in stream.chunks(cut) {
        if !connection.broken {
            connection.feed(alloc, piece)?;
        }
    }
    Ok(())
}

/// Whether a stream that arrives in pieces of `cut` bytes gets this answer, and whether it breaks.
fn answers(alloc: Global, stream: &[u8], reply: &[u8], cut: usize) -> Option<(bool, bool)> {
    let mut connection = Connection::new(alloc);
    match feed_in_pieces(alloc, &mut connection, stream, cut) {
        Ok(()) => Some((connection.out.as_slice() == reply, connection.broken)),
        Err(_) => None,
    }
}

fn see_each_cut(rt: &impl Abort, alloc: Global, case: &Case, stream: &[u8], reply: &[u8]) {
    for cut in 1..=stream.len() {
        let is_right = answers(alloc, stream, reply, cut) == Some((true, case.broken));
        assert!(rt; is_right, "{} cut every {cut} bytes", case.name);
    }
}

fn see_case(rt: &impl Abort, alloc: Global, case: &Case) -> Result<(), AllocError> {
    let stream = bytes_of(alloc, case.stream)?;
    let reply = bytes_of(alloc, case.reply)?;
    see_each_cut(rt, alloc, case, &stream, &reply);
    Ok(())
}

#[test]
fn streams_in_every_cut(rt: HostRuntime) {
    for case in cases() {
        assert!(rt; see_case(&rt, rt.alloc(), case).is_ok());
    }
}

/// The state of a connection: its records, and whether it is inside one.
fn place(connection: &Connection) -> (usize, bool) {
    (connection.records, connection.is_inside())
}

/// The state of a connection after the prefix, its state after the rest too, and whether it is broken then.
fn places(
    alloc: Global,
    prefix: &[u8],
    rest: &[u8],
) -> Result<((usize, bool), (usize, bool), bool), AllocError> {
    let mut connection = Connection::new(alloc);
    connection.feed(alloc, prefix)?;
    let first = place(&connection);
    connection.feed(alloc, rest)?;
    Ok((first, place(&connection), connection.broken))
}

/// Whether a call is answered exactly when it is complete, and its connection is inside a record if a part of it
/// arrived.
fn is_right_prefix(alloc: Global, prefix: &[u8], rest: &[u8]) -> bool {
    places(alloc, prefix, rest) == Ok(((0, !prefix.is_empty()), (1, false), false))
}

fn see_each_prefix(rt: &impl Abort, alloc: Global, stream: &[u8]) {
    for len in 0..stream.len() {
        let (prefix, rest) = stream.split_at(len);
        assert!(rt; is_right_prefix(alloc, prefix, rest), "{len} bytes");
    }
}

/// An incomplete call isn't answered, and its connection is inside a record unless no byte arrived.
#[test]
fn each_prefix_of_a_call(rt: HostRuntime) -> Result<(), AllocError> {
    let stream = bytes_of_lookup(rt.alloc())?;
    see_each_prefix(&rt, rt.alloc(), &stream);
    Ok(())
}

/// The step of a framer, with no contract, so that the prover doesn't compute on a test's bytes.
fn step(framer: &mut Framer, piece: &[u8], at: usize) -> Option<Step> {
    if at > piece.len() {
        return None;
    }
    Some(framer.feed(piece, at))
}

/// The steps of a record of two fragments, the first of 65,536 bytes and the second with this mark, and whether the
/// framer is inside a record then.
fn steps_with(half: &[u8], mark: u32) -> ([Option<Step>; 4], bool) {
    let mut framer = Framer::new();
    let steps = [
        step(&mut framer, &[0, 1, 0, 0], 0),
        step(&mut framer, half, 0),
        step(&mut framer, &mark.to_be_bytes(), 0),
        step(&mut framer, half, 0),
    ];
    (steps, framer.is_inside())
}

/// The steps of a record at the limit, and of one above it, at which the framer breaks.
static SECOND_MARKS: [(u32, Step, Step); 2] = [
    (0x8001_0000, Step::NeedMore, Step::Record(0, 65_536)),
    (0x8001_0001, Step::Broken, Step::Broken),
];

fn second_marks() -> &'static [(u32, Step, Step)] {
    &SECOND_MARKS
}

/// Whether the second mark and the bytes after it have these steps, and leave no incomplete record.
fn is_second(half: &[u8], mark: u32, third: Step, fourth: Step) -> bool {
    let (steps, is_inside) = steps_with(half, mark);
    let [first_found, second_found, third_found, fourth_found] = steps;
    (first_found == Some(Step::NeedMore))
        & (second_found == Some(Step::Part(0, 65_536)))
        & (third_found == Some(third))
        & (fourth_found == Some(fourth))
        & ((third == Step::Broken) | !is_inside)
}

fn see_second_marks(rt: &impl Abort, half: &[u8]) {
    for (mark, third, fourth) in second_marks() {
        assert!(rt; is_second(half, *mark, *third, *fourth), "{mark:x}");
    }
}

/// The limit is the record's: its second header takes it above.
#[test]
fn a_record_above_the_limit_in_two_fragments(rt: HostRuntime) -> Result<(), AllocError> {
    let half = vec![in rt.alloc(); 0u8; 65_536]?;
    see_second_marks(&rt, &half);
    assert!(rt; RECORD_LIMIT == 131_072);
    Ok(())
}

/// Pieces that are fed one after another, each from this place on, the step of each, and whether the framer is inside a
/// record then, if that is checked.
type Fed = (&'static [u8], usize, Step, Option<bool>);

static STEPS: [Fed; 9] = [
    (&[], 0, Step::NeedMore, Some(false)),
    (&[0, 0, 0, 0], 0, Step::Part(4, 4), Some(true)),
    (&[0x80], 0, Step::NeedMore, None),
    (&[9, 0, 0, 3, 7], 1, Step::Part(4, 5), None),
    (&[7, 7, 0], 0, Step::Record(0, 2), Some(false)),
    (&[7, 7, 0], 2, Step::NeedMore, Some(true)),
    (&[2, 0, 1], 0, Step::Broken, None),
    (&[0, 0, 0, 0], 0, Step::Broken, None),
    (&[], 0, Step::Broken, None),
];

fn steps() -> &'static [Fed] {
    &STEPS
}

/// Whether a piece has its step, and its place in a record.
fn is_step(framer: &mut Framer, fed: &Fed) -> bool {
    let (piece, at, want, inside) = fed;
    let found = step(framer, piece, *at);
    let is_place = match inside {
        Some(inside) => *inside == framer.is_inside(),
        None => true,
    };
    is_place & (found == Some(*want))
}

fn see_steps(rt: &impl Abort, framer: &mut Framer) {
    for fed in steps() {
        assert!(rt; is_step(framer, fed), "{fed:?}");
    }
}

#[test]
fn steps_of_a_framer(rt: HostRuntime) {
    let mut framer = Framer::new();
    assert!(rt; !framer.is_inside());
    see_steps(&rt, &mut framer);
}
