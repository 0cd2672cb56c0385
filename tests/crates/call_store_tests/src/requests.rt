//! Random calls of all operations, in the words of XDR (RFC 8881, section 18).

use crate::dice::Dice;
use compound_run::Server;
use std::alloc::{AllocError, Allocator, Global};

/// A COMPOUND: its caller, and its words from the count of its operations on.
#[derive(Drop)]
pub(crate) struct Request {
    pub uid: u32,
    pub words: Vec<u32>,
}

/// The high word of a number, and its low word.
fn hyper(number: u64) -> [u32; 2] {
    [(number >> 32) as u32, (number & 0xffff_ffff) as u32]
}

/// Operations that are collected.
#[derive(Drop)]
struct Series {
    count: u32,
    words: Vec<u32>,
}

impl Series {
    fn new(alloc: Global) -> Self {
        Series {
            count: 0,
            words: Vec::new(alloc),
        }
    }

    fn add(&mut self, words: &[u32]) -> Result<(), AllocError> {
        self.count = self.count.saturating_add(1);
        self.words.extend_from_slice(words)
    }

    fn request(self, alloc: Global, uid: u32) -> Result<Request, AllocError> {
        let mut words = Vec::from_slice(alloc, &[self.count])?;
        words.extend_from_slice(&self.words)?;
        Ok(Request { uid, words })
    }
}

/// A name of one letter.
fn name(dice: &mut Dice) -> [u32; 2] {
    [1, (0x61 + dice.below(6)) << 24]
}

/// The session ID of some session, or 0.
fn some_session<A: Allocator + Copy>(dice: &mut Dice, server: &Server<A>) -> u64 {
    let clients = server.clients();
    let (_, next) = clients.next_numbers();
    let from = u64::from(dice.below(u32::try_from(next).unwrap_or(1)));
    let found = clients.session_from(from);
    found.or_else(|| clients.session_from(0)).unwrap_or(0)
}

/// The client ID of some client, or 0.
fn some_client<A: Allocator + Copy>(dice: &mut Dice, server: &Server<A>) -> u64 {
    let clients = server.clients();
    let (next, _) = clients.next_numbers();
    let from = u64::from(dice.below(u32::try_from(next).unwrap_or(1)));
    let found = clients.client_from(from);
    found.or_else(|| clients.client_from(0)).unwrap_or(0)
}

/// The next sequence ID of a slot.
fn next_of<A: Allocator + Copy>(server: &Server<A>, session: u64, slot: u32) -> u32 {
    let kept = server.clients().kept(session, slot);
    kept.map_or(1, |call| call.number.wrapping_add(1))
}

fn sequence(session: u64, slot: u32, number: u32) -> [u32; 9] {
    let [high, low] = hyper(session);
    [53, 0, 0, high, low, number, slot, 0, 0]
}

/// A call that is logged and changes nothing: SEQUENCE, PUTROOTFH, and SETATTR of no attribute.
pub(crate) fn still<A: Allocator + Copy>(
    alloc: Global,
    server: &Server<A>,
    session: u64,
    slot: u32,
) -> Result<Request, AllocError> {
    let mut series = Series::new(alloc);
    series.add(&sequence(session, slot, next_of(server, session, slot)))?;
    series.add(&[24])?;
    series.add(&[34, 0, 0, 0, 0, 0, 0])?;
    series.request(alloc, 0)
}

/// EXCHANGE_ID of some owner.
pub(crate) fn exchange(alloc: Global, dice: &mut Dice, owners: u32) -> Result<Request, AllocError> {
    let mut series = Series::new(alloc);
    let (verifier, owner) = (dice.below(20) / 19, dice.below(owners));
    series.add(&[42, 0, verifier, 4, owner, 0, 0, 0])?;
    series.request(alloc, dice.one_of(&[0, 0, 0, 0, 5]))
}

/// CREATE_SESSION of some client, mostly by its next sequence ID.
fn create<A: Allocator + Copy>(
    alloc: Global,
    dice: &mut Dice,
    server: &Server<A>,
) -> Result<Request, AllocError> {
    let client = some_client(dice, server);
    let record = server.clients().record(client);
    let uid = record.map_or(0, |it| it.uid);
    let last = record.map_or(0, |it| it.created.map_or(0, |made| made.number));
    let number = last.wrapping_add(dice.one_of(&[1, 1, 1, 1, 1, 0, 2]));
    let reply = dice.one_of(&[4096, 4096, 4096, 5000, 100]);
    let [high, low] = hyper(client);
    let mut series = Series::new(alloc);
    let slots = 1 + dice.below(4);
    let flags = dice.below(2);
    series.add(&[
        43, high, low, number, flags, 0, 2048, reply, 0, 16, slots, 0, 0, 4096, 4096, 0, 2, 1, 0,
        0, 0,
    ])?;
    series.request(alloc, uid)
}

/// DESTROY_SESSION or DESTROY_CLIENTID.
fn destroy<A: Allocator + Copy>(
    alloc: Global,
    dice: &mut Dice,
    server: &Server<A>,
) -> Result<Request, AllocError> {
    let mut series = Series::new(alloc);
    if dice.is_in(50) {
        let [high, low] = hyper(some_session(dice, server));
        series.add(&[44, 0, 0, high, low])?;
    } else {
        let [high, low] = hyper(some_client(dice, server));
        series.add(&[57, high, low])?;
    }
    series.request(alloc, 0)
}

/// Goes to the root, or to a directory of it.
fn go(dice: &mut Dice, series: &mut Series) -> Result<(), AllocError> {
    series.add(&[24])?;
    if dice.is_in(30) {
        let [length, letter] = name(dice);
        series.add(&[15, length, letter])?;
    }
    Ok(())
}

/// OPEN of a file that is created if it doesn't exist, by GUARDED4 or UNCHECKED4, sometimes with size 0.
fn open(dice: &mut Dice, series: &mut Series) -> Result<(), AllocError> {
    let [length, letter] = name(dice);
    let (owner, how) = (dice.below(3), dice.one_of(&[0, 0, 1]));
    let access = 1 + dice.below(3);
    if dice.is_in(30) {
        series.add(&[
            18, 0, access, 0, 0, 0, 4, owner, 1, how, 1, 16, 8, 0, 0, 0, length, letter,
        ])
    } else {
        series.add(&[
            18, 0, access, 0, 0, 0, 4, owner, 1, how, 0, 0, 0, length, letter,
        ])
    }
}

/// SETATTR of a mode, an owner, a size, or nothing.
fn set(dice: &mut Dice, series: &mut Series) -> Result<(), AllocError> {
    match dice.below(4) {
        0 => series.add(&[
            34,
            0,
            0,
            0,
            0,
            2,
            0,
            2,
            4,
            dice.one_of(&[0o755, 0o644, 0o1777]),
        ]),
        1 => series.add(&[34, 0, 0, 0, 0, 2, 0, 16, 8, 1, 0x3500_0000]),
        2 => series.add(&[
            34,
            0,
            0,
            0,
            0,
            1,
            16,
            8,
            0,
            dice.one_of(&[0, 3, 5000, 200_000]),
        ]),
        _ => series.add(&[34, 0, 0, 0, 0, 0, 0]),
    }
}

/// WRITE of two words, by the stateid of zeros, or READ.
fn use_bytes(dice: &mut Dice, series: &mut Series) -> Result<(), AllocError> {
    let at = dice.one_of(&[0, 0, 4, 100, 5000, 1_048_576]);
    if dice.is_in(70) {
        series.add(&[
            38,
            0,
            0,
            0,
            0,
            0,
            at,
            2,
            8,
            dice.below(1000),
            dice.below(1000),
        ])
    } else {
        series.add(&[25, 0, 0, 0, 0, 0, at, 4096])
    }
}

/// LINK or RENAME of a name in the root.
fn link(dice: &mut Dice, series: &mut Series) -> Result<(), AllocError> {
    let ([first, old], [second, new]) = (name(dice), name(dice));
    if dice.is_in(50) {
        series.add(&[15, first, old])?;
        series.add(&[32])?;
        go(dice, series)?;
        return series.add(&[11, second, new]);
    }
    series.add(&[32])?;
    go(dice, series)?;
    series.add(&[29, first, old, second, new])
}

/// One or more operations on a name.
fn act(dice: &mut Dice, series: &mut Series) -> Result<(), AllocError> {
    let [length, letter] = name(dice);
    match dice.below(11) {
        0 => series.add(&[6, 2, length, letter, 0, 0]),
        1 => series.add(&[6, 5, 4, 0x7461_7267, length, letter, 0, 0]),
        2 | 3 => open(dice, series),
        4 => series.add(&[28, length, letter]),
        5 => link(dice, series),
        6 => {
            // CLOSE of some open, with any seqid
            let number = dice.below(30);
            series.add(&[15, length, letter])?;
            series.add(&[4, 0, 0, 0, 0, number])
        }
        7 => series.add(&[26, 0, 0, 0, 0, 4096, 4096, 1, 0x0010_0012]),
        8 => series.add(&[58, dice.below(2)]),
        9 => {
            series.add(&[15, length, letter])?;
            set(dice, series)
        }
        _ => {
            series.add(&[15, length, letter])?;
            use_bytes(dice, series)
        }
    }
}

/// A COMPOUND in some session, mostly by the next sequence ID of a slot.
fn compound<A: Allocator + Copy>(
    alloc: Global,
    dice: &mut Dice,
    server: &Server<A>,
) -> Result<Request, AllocError> {
    let session = some_session(dice, server);
    let slots = server
        .clients()
        .held(session)
        .map_or(1, |it| it.granted.slots);
    let slot = dice.below(slots);
    let ahead = dice.one_of(&[0, 0, 0, 0, 0, 0, 0, 0, 0, 1]);
    let number = next_of(server, session, slot).wrapping_add(ahead);
    let mut series = Series::new(alloc);
    series.add(&sequence(session, slot, number))?;
    for _ in 0..dice.below(3) {
        go(dice, &mut series)?;
        act(dice, &mut series)?;
    }
    if dice.is_in(20) {
        series.add(&[9, 1, 0x18])?;
    }
    series.request(alloc, dice.one_of(&[0, 0, 0, 0, 0, 5]))
}

/// Some call.
pub(crate) fn some<A: Allocator + Copy>(
    alloc: Global,
    dice: &mut Dice,
    server: &Server<A>,
) -> Result<Request, AllocError> {
    let (clients, sessions) = server.clients().counts();
    match dice.below(100) {
        0..4 => exchange(alloc, dice, 12),
        4..10 => create(alloc, dice, server),
        10..12 => destroy(alloc, dice, server),
        _ if clients == 0 => exchange(alloc, dice, 12),
        _ if sessions == 0 => create(alloc, dice, server),
        _ => compound(alloc, dice, server),
    }
}
