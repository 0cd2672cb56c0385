//! A hub that makes directories 1, 2 and so on, whose calls are logged.

use crate::calls::{CREATE_SESSION, EXCHANGE_ID, letter_of, look, make, replied};
use crate::image::Image;
use crate::memory::{Memory, left_of};
use call_store::{MACHINE, Opened, Store, StoreFault, open};
use nfs_hub::Hub;
use nfs_types::Limits;
use node_tree::Tree;
use std::alloc::{AllocError, Global};
use std::hash::RandomState;
use std::test::Fail;
use store_journal::{Current, Identity};
use who_book::Book;

pub(crate) const IDENTITY: Identity = Identity {
    high: 0x0123_4567_89ab_cdef,
    low: 0xfedc_ba98_7654_3210,
};

/// The reading of a store that is refused.
pub(crate) const REFUSED: u8 = 254;

/// The reading of a store in which a directory is missing.
pub(crate) const WRONG: u8 = 255;

/// An empty image.
pub(crate) fn nothing(alloc: Global) -> Image {
    Image {
        current: None,
        a: Vec::new(alloc),
        b: Vec::new(alloc),
    }
}

/// A hub and its store. The next SEQUENCE has this sequence ID.
#[derive(Drop)]
pub(crate) struct Play {
    pub hub: Hub,
    pub store: Store,
    pub sequence: u32,
}

/// Why a run stopped.
#[derive(Clone, Copy, PartialEq, Eq)]
pub(crate) enum Stopped {
    Store(StoreFault),
    /// The call wasn't answered, or no hub was made.
    Test,
}

impl Play {
    /// Stores what was logged.
    pub(crate) fn keep(&mut self, alloc: Global, disk: &mut Memory) -> Result<(), StoreFault> {
        let log = self.hub.log().unwrap_or(b"");
        self.store.keep(disk, alloc, log, self.hub.server())?;
        self.hub.begin_log();
        Ok(())
    }

    /// A call, which is stored.
    pub(crate) fn ask(
        &mut self,
        alloc: Global,
        disk: &mut Memory,
        words: &[u32],
    ) -> Result<(), Stopped> {
        let Some(_reply) = replied(alloc, &mut self.hub, words) else {
            return Err(Stopped::Test);
        };
        self.keep(alloc, disk).map_err(Stopped::Store)
    }

    /// Makes the next directory. The call is answered once it is stored.
    pub(crate) fn make(&mut self, alloc: Global, disk: &mut Memory) -> Result<(), Stopped> {
        disk.all = disk.all.saturating_add(1);
        let words = make(self.sequence, disk.all);
        self.sequence = self.sequence.saturating_add(1);
        self.ask(alloc, disk, &words)?;
        disk.kept = disk.all;
        Ok(())
    }

    /// A call that changes nothing.
    pub(crate) fn look(&mut self, alloc: Global, disk: &mut Memory) -> Result<(), Stopped> {
        let words = look(self.sequence);
        self.sequence = self.sequence.saturating_add(1);
        self.ask(alloc, disk, &words)
    }
}

/// A hub with an empty book and persistent sessions.
pub(crate) fn lasting(alloc: Global, hasher: RandomState) -> Option<Hub> {
    let mut hub = Hub::lasting(alloc, Limits::standard(), Book::default(alloc), hasher).ok()?;
    hub.begin_log();
    Some(hub)
}

/// A new store, with a client and its session.
pub(crate) fn begun(
    alloc: Global,
    hasher: RandomState,
    disk: &mut Memory,
) -> Result<Play, Stopped> {
    let Some(hub) = lasting(alloc, hasher) else {
        return Err(Stopped::Test);
    };
    let current = Current::new(IDENTITY, MACHINE);
    let store = Store::begin(disk, alloc, current, hub.server()).map_err(Stopped::Store)?;
    let mut play = Play {
        hub,
        store,
        sequence: 1,
    };
    play.ask(alloc, disk, &EXCHANGE_ID)?;
    play.ask(alloc, disk, &CREATE_SESSION)?;
    Ok(play)
}

/// Four directories. After the second one comes a mark, and after the third one a checkpoint.
pub(crate) fn run(alloc: Global, hasher: RandomState, disk: &mut Memory) -> Result<Play, Stopped> {
    let mut play = begun(alloc, hasher, disk)?;
    play.make(alloc, disk)?;
    play.make(alloc, disk)?;
    play.store.mark(disk, alloc).map_err(Stopped::Store)?;
    play.look(alloc, disk)?;
    play.make(alloc, disk)?;
    let server = play.hub.server();
    play.store
        .close(disk, alloc, server)
        .map_err(Stopped::Store)?;
    play.make(alloc, disk)?;
    Ok(play)
}

/// The number of the last directory, or `WRONG` if one before it is missing.
pub(crate) fn number_of(hub: &Hub) -> u8 {
    number_in_tree(hub.server().tree())
}

/// The number of the last directory of a tree, or `WRONG` if one before it is missing.
pub(crate) fn number_in_tree(tree: &Tree) -> u8 {
    let mut last = 0u8;
    for number in 1..10u8 {
        if tree.find(tree.root(), &[letter_of(number)]).is_some() {
            if number != last.saturating_add(1) {
                return WRONG;
            }
            last = number;
        }
    }
    last
}

/// Opens a store, and continues from it.
pub(crate) fn opened(
    alloc: Global,
    hasher: RandomState,
    disk: &mut Memory,
) -> Result<Option<Play>, StoreFault> {
    opened_in(alloc, hasher, disk, 0)
}

/// Opens a store in this second, and continues from it.
pub(crate) fn opened_in(
    alloc: Global,
    hasher: RandomState,
    disk: &mut Memory,
    second: u64,
) -> Result<Option<Play>, StoreFault> {
    match open(disk, alloc, alloc, hasher, second)? {
        Opened::New(_) => Ok(None),
        Opened::Kept(found) => {
            let mut hub = Hub::started(alloc, found.restart);
            hub.begin_log();
            Ok(Some(Play {
                hub,
                store: found.store,
                sequence: 1,
            }))
        }
    }
}

/// The number that an image has, and 0 if the store is new.
pub(crate) fn number_in(
    alloc: Global,
    hasher: RandomState,
    image: &Image,
) -> Result<u8, AllocError> {
    let mut disk = Memory::new(alloc, image.copy(alloc)?, 1000);
    Ok(match opened(alloc, hasher, &mut disk) {
        Ok(Some(play)) => number_of(&play.hub),
        Ok(None) => 0,
        Err(_) => REFUSED,
    })
}

/// The image after a complete run.
pub(crate) fn after_run(alloc: Global, hasher: RandomState) -> Result<Image, Fail> {
    let mut disk = Memory::new(alloc, nothing(alloc), 1000);
    if run(alloc, hasher, &mut disk).is_err() {
        return Err(Fail::new("the run stopped"));
    }
    Ok(left_of(alloc, &disk.before, &disk.events)?.safe)
}
