//! CURRENT: the identity of the store, its active file, and the generation of that file.
ghost use Rattle.std.specs.Prelude.{◌≡◌, ◌+◌, ◌<◌, ◌^◌, IfOk};
ghost use Rattle.store_journal.specs.Current.{new_current, begun_next, turned_to_begun, form_of, in_known_slot};
ghost use Rattle.store_journal.specs.Current.{current_in, current_bytes, IsFitCurrent};
ghost use Rattle.store_journal.specs.Disk.{other};

use crate::checksum::{Identity, current_checksum_of};
use crate::disk::Slot;
use crate::fault::CurrentFault;
use std::alloc::{AllocError, Allocator};
use xdr_wire::{Full, Reader, Spell, Wire, Writer, XdrFault};

/// The version of the form of CURRENT and of frames.
pub(crate) const VERSION: u64 = 3;

/// The bytes of CURRENT: seven numbers and their checksum.
const SIZE: usize = 8 * 8;

/// The content of CURRENT.
#[derive(Clone, Copy, Debug, PartialEq, Eq)]
pub struct Current {
    pub identity: Identity,
    /// The active generation. 0: no checkpoint was finished yet.
    pub generation: u64,
    /// The last generation that was begun. No generation is begun twice. Frames of an abandoned checkpoint therefore
    /// never have the generation of a later one.
    pub begun: u64,
    /// The active file.
    pub slot: Slot,
    /// The caller's own number, as the version of what the bytes of parts and records mean.
    pub machine: u64,
}

/// The numbers of CURRENT in the order of its file. They keep this form in all versions.
#[derive(Clone, Copy, PartialEq, Eq)]
pub(crate) struct CurrentForm {
    pub version: u64,
    pub high: u64,
    pub low: u64,
    pub generation: u64,
    pub begun: u64,
    /// 0: the first file. 1: the second file.
    pub slot: u64,
    pub machine: u64,
}

/// The other file.
pub(crate) fn other_slot(slot: Slot) -> Slot
    ensures { result ≡ other slot }
{
    match slot {
        Slot::A => Slot::B,
        Slot::B => Slot::A,
    }
}

impl Current {
    /// CURRENT of a new store. The caller draws the identity once, at random.
    pub fn new(identity: Identity, machine: u64) -> Self
        ensures { result ≡ new_current identity machine }
    {
        Current {
            identity,
            generation: 0,
            begun: 0,
            slot: Slot::B,
            machine,
        }
    }

    /// CURRENT with one more generation begun.
    pub(crate) fn begin_next(self) -> Self
        requires { self.begun + 1 < 2 ^ 64 }
        ensures { result ≡ begun_next self }
    {
        Current {
            begun: self.begun + 1,
            ..self
        }
    }

    /// CURRENT that makes the last begun generation active, in the other file.
    pub(crate) fn turn_to_begun(self, machine: u64) -> Self
        ensures { result ≡ turned_to_begun self machine }
    {
        Current {
            generation: self.begun,
            slot: other_slot(self.slot),
            machine,
            ..self
        }
    }

    /// The numbers of CURRENT.
    fn form(self) -> CurrentForm
        ensures { result ≡ form_of self }
    {
        CurrentForm {
            version: VERSION,
            high: self.identity.high,
            low: self.identity.low,
            generation: self.generation,
            begun: self.begun,
            slot: match self.slot {
                Slot::A => 0,
                Slot::B => 1,
            },
            machine: self.machine,
        }
    }

    /// The bytes of CURRENT.
    #[tactic(auto, unfolding(crate::specs::Current::current_bytes, crate::specs::Current::IsFitCurrent))]
    pub(crate) fn bytes<A: Allocator>(self, alloc: A) -> Result<Writer<A>, AllocError>
        ensures bytes { IfOk result (λ w. w.bytes ≡ current_bytes self) }
        ensures fit { IfOk result (λ w. IsFitCurrent self) }
    {
        let mut writer = Writer::new(alloc, SIZE)?;
        let form = self.form();
        let Ok(()) = (form, current_checksum_of(form)).write(&mut writer) else {
            return Err(AllocError);
        };
        Ok(writer)
    }
}

impl CurrentForm {
    /// The content of this form. `Corrupt`: the slot is neither A nor B.
    fn in_known_slot(self) -> Result<Current, CurrentFault>
        ensures { result ≡ in_known_slot self }
    {
        let slot = match self.slot {
            0 => Slot::A,
            1 => Slot::B,
            _ => return Err(CurrentFault::Corrupt),
        };
        Ok(Current {
            identity: Identity {
                high: self.high,
                low: self.low,
            },
            generation: self.generation,
            begun: self.begun,
            slot,
            machine: self.machine,
        })
    }
}

/// Reads CURRENT. `Version`: it is intact, and of another version. `Corrupt`: it is corrupt.
#[tactic(auto, unfolding(crate::specs::Current::current_in))]
pub(crate) fn read_current(bytes: &[u8]) -> Result<Current, CurrentFault>
    ensures { result ≡ current_in bytes.now }
{
    let mut reader = Reader::new(bytes);
    let Ok((form, checksum)) = <(CurrentForm, u64)>::read(&mut reader) else {
        return Err(CurrentFault::Corrupt);
    };
    if reader.len() != 0 {
        return Err(CurrentFault::Corrupt);
    }
    if checksum != current_checksum_of(form) {
        return Err(CurrentFault::Corrupt);
    }
    if form.version != VERSION {
        return Err(CurrentFault::Version);
    }
    form.in_known_slot()
}

impl Spell for CurrentForm {
    ghost use Rattle.std.specs.Prelude.{None};
    ghost use Rattle.store_journal.specs.Current.{numbers_form, numbers_value};

    ghost form = { numbers_form };

    ghost view = { numbers_value };

    ghost normal = { None };

    fn write<A: Allocator>(self, writer: &mut Writer<A>) -> Result<(), Full> {
        let file = (self.generation, (self.begun, (self.slot, self.machine)));
        (self.version, (self.high, (self.low, file))).write(writer)
    }
}

impl<'a> Wire<'a> for CurrentForm {
    fn read(reader: &mut Reader<'a>) -> Result<Self, XdrFault> {
        let (version, (high, (low, (generation, (begun, (slot, machine)))))) = Wire::read(reader)?;
        Ok(CurrentForm {
            version,
            high,
            low,
            generation,
            begun,
            slot,
            machine,
        })
    }
}
