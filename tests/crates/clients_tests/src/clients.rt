//! The state of clients, as a server changes it, and its picture.

use compound_run::{ClientState, Lent, Open};
use rpc_record::Caller;
use session_slots::{
    Begin, CachedCall, CallBytes, Channel, Create, Created, Creation, Exchange, Sequence,
};
use std::alloc::{AllocError, Allocator, Global};

/// The channel that a session requests, and is granted.
pub(crate) const CHANNEL: Channel = Channel {
    padding: 0,
    request_size: 512,
    reply_size: 4096,
    cached_size: 4096,
    operations: 8,
    slots: 2,
};

/// The user of all callers.
pub(crate) const UID: u32 = 4;

/// An owner registers, and gets a client ID, unless the limit is reached or an allocation fails.
pub(crate) fn exchange<A: Allocator + Copy>(
    clients: &mut ClientState<A>,
    owner: &[u8],
) -> Option<u64> {
    let asked = Exchange {
        owner,
        verifier: 7,
        uid: UID,
        flags: 0,
        has_opens: false,
        now: 1,
    };
    match clients.clients.exchange_id(asked) {
        Ok(exchanged) => Some(exchanged.client),
        Err(_) => None,
    }
}

/// A client gets a session over this channel by its first CREATE_SESSION.
pub(crate) fn create<A: Allocator + Copy>(
    clients: &mut ClientState<A>,
    client: u64,
    fore: Channel,
) -> Option<u64> {
    let asked = Create {
        client,
        sequence: 1,
        uid: UID,
        persist: true,
        lasting: true,
        fore,
        back: CHANNEL,
    };
    match clients.clients.create_session(asked).result {
        Ok(created) => Some(created.session),
        Err(_) => None,
    }
}

/// An owner registers, and gets a session.
pub(crate) fn after_steps<A: Allocator + Copy>(
    clients: &mut ClientState<A>,
    owner: &[u8],
) -> Option<u64> {
    let client = exchange(clients, owner)?;
    create(clients, client, CHANNEL)
}

/// Whether a call on a slot is new; if so, its results are cached.
pub(crate) fn call<A: Allocator + Copy>(
    clients: &mut ClientState<A>,
    session: u64,
    slot: u32,
    number: u32,
    arguments: &[u8],
    results: &[u8],
) -> bool {
    let caller = Caller::new(UID, 5, &[9, 6]);
    let asked = Sequence {
        slot,
        number,
        highest: 0,
        count: 2,
        record_len: arguments.len(),
        arguments: CallBytes {
            prefix: arguments,
            back: &[],
        },
        caller: &caller,
        now: 1,
    };
    match clients.clients.begin(session, asked) {
        Begin::New(_) => {
            clients.clients.keep(session, slot, results);
            true
        }
        _ => false,
    }
}

/// A client opens a file, and gets the next number for it.
pub(crate) fn opens<A: Allocator + Copy>(
    alloc: A,
    clients: &mut ClientState<A>,
    client: u64,
    object: u64,
) -> Result<(), AllocError> {
    let open = Open {
        number: clients.next_open,
        client,
        owner: Vec::from_slice(alloc, b"someone")?,
        object,
        access: 3,
        seqid: 1,
    };
    clients.opens.push(open)?;
    clients.next_open += 1;
    Ok(())
}

/// Numbers and bytes, one after the other, each with its length.
#[derive(Drop)]
pub(crate) struct Picture {
    pub bytes: Vec<u8>,
}

impl Picture {
    fn put(&mut self, number: u64) -> Result<(), AllocError> {
        self.bytes.extend_from_slice(&number.to_be_bytes())
    }

    fn put_bytes(&mut self, bytes: &[u8]) -> Result<(), AllocError> {
        self.put(bytes.len() as u64)?;
        self.bytes.extend_from_slice(bytes)
    }

    fn put_channel(&mut self, it: Channel) -> Result<(), AllocError> {
        for number in [
            it.padding,
            it.request_size,
            it.reply_size,
            it.cached_size,
            it.operations,
            it.slots,
        ] {
            self.put(u64::from(number))?;
        }
        Ok(())
    }

    fn put_created(&mut self, it: Created) -> Result<(), AllocError> {
        self.put(it.session)?;
        self.put(u64::from(it.sequence))?;
        self.put(u64::from(it.persist))?;
        self.put_channel(it.fore)?;
        self.put_channel(it.back)
    }

    fn put_creation(&mut self, it: Option<Creation>) -> Result<(), AllocError> {
        let Some(it) = it else {
            return self.put(0);
        };
        self.put(1)?;
        self.put(u64::from(it.number))?;
        match it.result {
            Ok(created) => self.put_created(created),
            Err(status) => self.put(status as u64),
        }
    }

    fn put_call(&mut self, kept: Option<CachedCall<'_>>) -> Result<(), AllocError> {
        let Some(kept) = kept else {
            return self.put(0);
        };
        self.put(1)?;
        self.put(u64::from(kept.number))?;
        self.put(u64::from(kept.caller.uid()))?;
        self.put(u64::from(kept.caller.gid()))?;
        for group in kept.caller.groups() {
            self.put(u64::from(*group))?;
        }
        self.put_bytes(kept.arguments)?;
        self.put_bytes(kept.results)
    }

    fn put_records<A: Allocator + Copy>(&mut self, now: Lent<'_, A>) -> Result<(), AllocError> {
        let mut at = 0;
        while let Some(number) = now.clients.client_from(at) {
            let Some(it) = now.clients.record(number) else {
                return Err(AllocError);
            };
            self.put(it.number)?;
            self.put_bytes(it.owner)?;
            self.put(it.verifier)?;
            self.put(u64::from(it.uid))?;
            self.put(u64::from(it.confirmed))?;
            self.put(u64::from(it.reclaimed))?;
            self.put_creation(it.created)?;
            at = number + 1;
        }
        Ok(())
    }

    fn put_sessions<A: Allocator + Copy>(&mut self, now: Lent<'_, A>) -> Result<(), AllocError> {
        let mut at = 0;
        while let Some(number) = now.clients.session_from(at) {
            let Some(held) = now.clients.held(number) else {
                return Err(AllocError);
            };
            self.put(number)?;
            self.put(held.client)?;
            self.put_channel(held.granted)?;
            for slot in 0..held.granted.slots {
                self.put_call(now.clients.kept(number, slot))?;
            }
            at = number + 1;
        }
        Ok(())
    }

    fn put_opens<A: Allocator + Copy>(&mut self, now: Lent<'_, A>) -> Result<(), AllocError> {
        for open in now.opens {
            self.put(open.number)?;
            self.put(open.client)?;
            self.put_bytes(&open.owner)?;
            self.put(open.object)?;
            self.put(u64::from(open.access))?;
            self.put(u64::from(open.seqid))?;
        }
        self.put(now.next_open)
    }

    /// Appends the state of clients.
    pub(crate) fn put_known<A: Allocator + Copy>(
        &mut self,
        now: Lent<'_, A>,
    ) -> Result<(), AllocError> {
        let (client, session) = now.clients.next_numbers();
        self.put(client)?;
        self.put(session)?;
        self.put_records(now)?;
        self.put_sessions(now)?;
        self.put_opens(now)
    }
}

/// The state of clients, as bytes.
pub(crate) fn picture_of<A: Allocator + Copy>(
    alloc: Global,
    now: Lent<'_, A>,
) -> Result<Vec<u8>, AllocError> {
    let mut picture = Picture {
        bytes: Vec::new(alloc),
    };
    picture.put_known(now)?;
    Ok(picture.bytes)
}
