//! The attributes: their numbers, their sets, and how the value of each is written (RFC 8881, section 5).
ghost use Rattle.std.specs.Prelude.{◌≡◌, ◌≤◌, ◌<◌, ◌^◌, length};
ghost use Rattle.xdr_wire.specs.Xdr.{spelling};
ghost use Rattle.who_book.specs.Spelling.{principal_text};
ghost use Rattle.nfs_types.specs.Attributes as specs;
ghost use Rattle.nfs_types.specs.Attributes.{text, type_number, typed};
ghost use Rattle.nfs_types.specs.Writing.{IsWritten};

use crate::acl::{write_list, write_part_of_list};
use crate::bitmap::Bitmap;
use crate::handle::Handle;
use crate::moment::Moment;
use crate::status::Status;
use acl_list::{Entry, Kind};
use acl_shape::Part;
use std::alloc::Allocator;
use who_book::{Book, NameKind};
use xdr_wire::{Full, Spell, Writer};

/// The attributes that are supported (RFC 8881, sections 5.6 to 5.8 and 6.2), each with its number.
#[derive(Clone, Copy, PartialEq, Eq)]
pub enum Attribute {
    /// supported_attrs: the attributes that are supported.
    SupportedAttrs = 0,
    /// type: file, directory or link.
    ObjectType = 1,
    /// fh_expire_type: filehandles are persistent.
    FhExpireType = 2,
    /// change: a number that each change of the object increases.
    Change = 3,
    /// size: the number of bytes of a file or a link text.
    Size = 4,
    /// link_support: files can have many names.
    LinkSupport = 5,
    /// symlink_support: the server has symbolic links.
    SymlinkSupport = 6,
    /// named_attr: no object has named attributes.
    NamedAttr = 7,
    /// fsid: the server has one file system.
    Fsid = 8,
    /// unique_handles: two filehandles mean two objects.
    UniqueHandles = 9,
    /// lease_time: in seconds.
    LeaseTime = 10,
    /// rdattr_error: why READDIR left out attributes of an entry.
    RdattrError = 11,
    /// acl: the access control list (ACL).
    Acl = 12,
    /// aclsupport: the types of access control entries (ACEs) that are supported.
    AclSupport = 13,
    /// cansettime: times can be set.
    CanSetTime = 15,
    /// filehandle: the object's own.
    FileHandle = 19,
    /// fileid: the object's number.
    FileId = 20,
    /// maxfilesize: the largest number of bytes of a file.
    MaxFileSize = 27,
    /// maxname: the largest number of bytes of a name.
    MaxName = 29,
    /// maxread: the largest number of bytes that a READ returns.
    MaxRead = 30,
    /// maxwrite: the largest number of bytes that a WRITE is advised to send.
    MaxWrite = 31,
    /// mode: the lowest twelve bits of a Unix mode.
    Mode = 33,
    /// numlinks: the number of names of the object.
    NumLinks = 35,
    /// owner: the owner's name.
    Owner = 36,
    /// owner_group: the group's name.
    OwnerGroup = 37,
    /// space_used: the bytes of the object's blocks, of 4,096 bytes each.
    SpaceUsed = 45,
    /// time_access: the time of the last access that was set, or of the object's making.
    TimeAccess = 47,
    /// time_access_set: sets time_access; it is never returned.
    TimeAccessSet = 48,
    /// time_delta: times are kept to the nanosecond.
    TimeDelta = 51,
    /// time_metadata: the time of the last change.
    TimeMetadata = 52,
    /// time_modify: the time of the last change of the content.
    TimeModify = 53,
    /// time_modify_set: sets time_modify; it is never returned.
    TimeModifySet = 54,
    /// mounted_on_fileid: the object's number, since the server has only one file system.
    MountedOnFileId = 55,
    /// dacl: the part of the ACL that allows and denies.
    Dacl = 58,
    /// sacl: the part of the ACL that watches.
    Sacl = 59,
    /// suppattr_exclcreat: the attributes that an exclusive create sets: none.
    SuppattrExclcreat = 75,
}

/// All attributes, by rising number.
pub const ALL: [Attribute; 36] = [
    Attribute::SupportedAttrs,
    Attribute::ObjectType,
    Attribute::FhExpireType,
    Attribute::Change,
    Attribute::Size,
    Attribute::LinkSupport,
    Attribute::SymlinkSupport,
    Attribute::NamedAttr,
    Attribute::Fsid,
    Attribute::UniqueHandles,
    Attribute::LeaseTime,
    Attribute::RdattrError,
    Attribute::Acl,
    Attribute::AclSupport,
    Attribute::CanSetTime,
    Attribute::FileHandle,
    Attribute::FileId,
    Attribute::MaxFileSize,
    Attribute::MaxName,
    Attribute::MaxRead,
    Attribute::MaxWrite,
    Attribute::Mode,
    Attribute::NumLinks,
    Attribute::Owner,
    Attribute::OwnerGroup,
    Attribute::SpaceUsed,
    Attribute::TimeAccess,
    Attribute::TimeAccessSet,
    Attribute::TimeDelta,
    Attribute::TimeMetadata,
    Attribute::TimeModify,
    Attribute::TimeModifySet,
    Attribute::MountedOnFileId,
    Attribute::Dacl,
    Attribute::Sacl,
    Attribute::SuppattrExclcreat,
];

/// The words of the set of all attributes.
pub(crate) const ALL_WORDS: [u32; 8] = [0xe818_bfff, 0x0cf9_a03a, 0x0000_0800, 0, 0, 0, 0, 0];

/// The words of the set of the attributes that are supported where times can't be set.
pub(crate) const WITHOUT_TIMES: [u32; 8] = [0xe818_3fff, 0x0cb0_003a, 0x0000_0800, 0, 0, 0, 0, 0];

/// The words of the set of the attributes that can be set.
pub(crate) const SETTABLE: [u32; 8] = [0x0000_1010, 0x0c41_0032, 0, 0, 0, 0, 0, 0];

/// The numbers of the attributes that READ_ATTRIBUTES lets a caller read (RFC 8881, section 6.2.1.3.1).
pub const READ_BY_ATTRIBUTES: [u32; 10] = [
    Attribute::Change as u32,
    Attribute::Size as u32,
    Attribute::Mode as u32,
    Attribute::NumLinks as u32,
    Attribute::Owner as u32,
    Attribute::OwnerGroup as u32,
    Attribute::SpaceUsed as u32,
    Attribute::TimeAccess as u32,
    Attribute::TimeMetadata as u32,
    Attribute::TimeModify as u32,
];

/// The numbers of the attributes that READ_ACL lets a caller read.
pub const READ_BY_ACL: [u32; 3] = [
    Attribute::Acl as u32,
    Attribute::Dacl as u32,
    Attribute::Sacl as u32,
];

/// The numbers of the attributes that WRITE_ACL lets a caller set.
pub const SET_BY_ACL: [u32; 4] = [
    Attribute::Acl as u32,
    Attribute::Mode as u32,
    Attribute::Dacl as u32,
    Attribute::Sacl as u32,
];

/// The numbers of the attributes that WRITE_OWNER lets a caller set.
pub const SET_BY_OWNER: [u32; 2] = [Attribute::Owner as u32, Attribute::OwnerGroup as u32];

impl Attribute {
    ghost use Rattle.nfs_types.specs.Attributes.{number_of};

    /// The number of the attribute in a bitmap.
    pub fn number(self) -> u32
        ensures { result ≡ number_of self }
    {
        self as u32
    }
}

/// The facts about an object that GETATTR and READDIR return, borrowed.
#[derive(Clone, Copy)]
pub struct ObjectFacts<'a> {
    /// The type of the object.
    pub kind: Kind,
    /// The number of the object, which its filehandle and its file IDs contain.
    pub number: u64,
    /// A number that each change of the object increases.
    pub change: u64,
    /// The number of bytes of a file or a link text; 0 for a directory.
    pub size: u64,
    /// Why READDIR returns less than was requested, else `Ok`.
    pub error: Status,
    /// The ACL, of at most 64 ACEs.
    pub entries: &'a [Entry],
    /// The mode: its high bits, and the mode that the ACL represents.
    pub mode: u32,
    /// The number of names of the object.
    pub numlinks: u32,
    /// The number of the owner.
    pub owner: u32,
    /// The number of the owner's group.
    pub group: u32,
    /// The time of the last change.
    pub metadata: Moment,
    /// The time of the last change of the content.
    pub modify: Moment,
    /// The time of the last access.
    pub access: Moment,
    /// The most bytes that a file may have.
    pub most_bytes: u64,
    /// Whether times can be set.
    pub times: bool,
    ghost few: { length entries.now ≤ 64 },
    ghost is_small: { size < 2 ^ 62 },
}

/// The number of the type, `nfs_ftype4`.
fn number_of_type(kind: Kind) -> u32
    ensures { result ≡ type_number kind }
{
    match kind {
        Kind::File => 1,
        Kind::Directory => 2,
        Kind::Link => 5,
    }
}

/// The bytes of the blocks that an object takes, of 4,096 bytes each. A file takes those of its size, and any other
/// object one.
fn space_of(kind: Kind, size: u64) -> u64
    requires { size < 2 ^ 62 }
    ensures { result ≡ specs.space_of kind size }
{
    match kind {
        Kind::File => (size + 4_095) / 4_096 * 4_096,
        Kind::Directory | Kind::Link => 4_096,
    }
}

/// Writes the text of a user or a group. It is a function of its own: the text takes 200 bytes of the stack, which no
/// other attribute should reserve.
#[tactic(auto, unfolding(crate::specs::Writing::IsWritten))]
fn put_principal<A: Allocator>(
    book: &Book,
    kind: NameKind,
    number: u32,
    writer: &mut Writer<A>,
) -> Result<(), Full>
    ensures { IsWritten (typed text (principal_text kind book.now number)) writer.old writer.new result }
{
    writer.put_opaque(book.spell_principal(kind, number).as_bytes())
}

/// Writes a value of at most 16,384 bytes.
#[tactic(auto, unfolding(crate::specs::Writing::IsWritten))]
fn put<T: Spell, A: Allocator>(value: T, writer: &mut Writer<A>) -> Result<(), Full>
    requires { length (spelling T.form (T.view value)) ≤ 16384 }
    ensures { IsWritten (typed T.form (T.view value)) writer.old writer.new result }
{
    value.write(writer)
}

impl<'a> ObjectFacts<'a> {
    ghost use Rattle.nfs_types.specs.FactsView.{facts_value};
    ghost use Rattle.nfs_types.specs.Attributes.{value_of};

    /// Writes the value of an attribute.
    pub(crate) fn write<A: Allocator>(
        &self,
        book: &Book,
        attribute: Attribute,
        writer: &mut Writer<A>,
    ) -> Result<(), Full>
        ensures { IsWritten (value_of book.now (facts_value self.now) attribute) writer.old writer.new result }
    {
        match attribute {
            Attribute::SupportedAttrs => put(Bitmap::supported(self.times), writer),
            Attribute::ObjectType => put(number_of_type(self.kind), writer),
            Attribute::FhExpireType => put(0u32, writer),
            Attribute::Change => put(self.change, writer),
            Attribute::Size => put(self.size, writer),
            Attribute::LinkSupport => put(true, writer),
            Attribute::SymlinkSupport => put(true, writer),
            Attribute::NamedAttr => put(false, writer),
            Attribute::Fsid => put((1u64, 0u64), writer),
            Attribute::UniqueHandles => put(true, writer),
            Attribute::LeaseTime => put(90u32, writer),
            Attribute::RdattrError => put(self.error.number(), writer),
            Attribute::Acl => write_list(book, self.entries, writer),
            Attribute::AclSupport => put(15u32, writer),
            Attribute::CanSetTime => put(true, writer),
            Attribute::FileHandle => put(Handle::Object(self.number), writer),
            Attribute::FileId => put(self.number, writer),
            Attribute::MaxFileSize => put(self.most_bytes, writer),
            Attribute::MaxName => put(255u32, writer),
            Attribute::MaxRead => put(32_768u64, writer),
            Attribute::MaxWrite => put(61_440u64, writer),
            Attribute::Mode => put(self.mode, writer),
            Attribute::NumLinks => put(self.numlinks, writer),
            Attribute::Owner => put_principal(book, NameKind::User, self.owner, writer),
            Attribute::OwnerGroup => put_principal(book, NameKind::Group, self.group, writer),
            Attribute::SpaceUsed => put(space_of(self.kind, self.size), writer),
            Attribute::TimeAccess => put(self.access, writer),
            Attribute::TimeDelta => put((0i64, 1u32), writer),
            Attribute::TimeMetadata => put(self.metadata, writer),
            Attribute::TimeModify => put(self.modify, writer),
            Attribute::TimeAccessSet | Attribute::TimeModifySet => put((), writer),
            Attribute::MountedOnFileId => put(self.number, writer),
            Attribute::Dacl => write_part_of_list(book, self.entries, Part::Dacl, writer),
            Attribute::Sacl => write_part_of_list(book, self.entries, Part::Sacl, writer),
            Attribute::SuppattrExclcreat => put(Bitmap::empty(), writer),
        }
    }
}
