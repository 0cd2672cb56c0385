//! The table of the demands of each operation.
ghost use Rattle.std.specs.Prelude.{◌≡◌, ◌≤◌, if◌then◌else◌};
ghost use Rattle.acl_list.specs.declared.mask.TheConstants as mask;
ghost use Rattle.nfs_types.specs.Views.{bitmap_value};
ghost use Rattle.nfs_ops.specs.OpViews.{op_view};
ghost use Rattle.nfs_ops.specs.Parts as parts;
ghost use Rattle.nfs_ops.specs.Parts.{created};
ghost use Rattle.nfs_ops.specs.Views.{create_type_value, open_how_value, open_claim_value};
ghost use Rattle.access_rows.specs.Rows as specs;

use crate::demand::Demand;
use crate::facts::{Clock, First, Object, Second};
use acl_list::{Kind, mask};
use nfs_ops::{CreateType, Op, OpenArgs, OpenClaim, OpenHow};
use nfs_types::{Attribute, Bitmap, READ_BY_ACL, READ_BY_ATTRIBUTES, SET_BY_ACL, SET_BY_OWNER};

/// The first demands of an operation on access control lists (ACLs), in order (RFC 8881, sections 6.2.1.3.1 and 18).
/// They are EXECUTE on the directories of its names, or all demands of an operation without names. The function
/// allocates nothing. Deciding on the demands reads at most two ACLs.
///
/// | Operation | Demands |
/// |---|---|
/// | LOOKUP, LOOKUPP | EXECUTE on the directory |
/// | READDIR | LIST_DIRECTORY (its entries are judged as they are listed) |
/// | READ, READLINK | READ_DATA |
/// | WRITE | within the file, or nothing: WRITE_DATA; at its end: APPEND_DATA; across or past it: both |
/// | OPEN by name, an existing file | EXECUTE on the directory; then on the file as by filehandle |
/// | OPEN by name, a new file | EXECUTE on the directory, then ADD_FILE |
/// | OPEN by filehandle | READ_DATA to read, APPEND_DATA to write, WRITE_DATA to truncate |
/// | CREATE | EXECUTE with ADD_FILE (a link) or ADD_SUBDIRECTORY (a directory) |
/// | LINK | EXECUTE with ADD_FILE on the target directory |
/// | REMOVE | EXECUTE; then the removal of the name |
/// | RENAME | EXECUTE on the source directory, then on the target directory if it is another; then |
/// | | the removal of the source, ADD_FILE or ADD_SUBDIRECTORY on the target directory, |
/// | | the removal of a replaced target |
/// | GETATTR, VERIFY, NVERIFY | READ_ATTRIBUTES for 3, 4, 33, 35, 36, 37, 45, 47, 52 and 53; |
/// | | READ_ACL for 12, 58 and 59 |
/// | SETATTR | for a size WRITE_DATA, and APPEND_DATA too if the file grows |
/// | | for mode, acl, dacl and sacl WRITE_ACL; for owner and group WRITE_OWNER |
/// | | for a time of the client's WRITE_ATTRIBUTES |
/// | | for times that are the server's alone, a demand of its own: WRITE_ATTRIBUTES or WRITE_DATA |
/// | all others, ACCESS among them | nothing |
///
/// The demands after a "then" are those of `second_demands`. Permissions on one object in one phase are one demand.
#[tactic(auto, using(crate::proofs::Most::first_few))]
pub fn first_demands(op: &Op<'_>, facts: &First) -> [Option<Demand>; 2]
    ensures value { result ≡ specs.first_demands (op_view op.now) facts.now }
    ensures few { specs.lists_in result ≤ specs.most_first }
{
    match op {
        Op::Create(args) => [bits(facts.current, creating_mask(&args.kind)), None],
        Op::GetAttr(args) => [bits(facts.current, reading_mask(&args.asked)), None],
        Op::Link(_) => [bits(facts.current, mask::EXECUTE | mask::ADD_FILE), None],
        Op::Lookup(_) | Op::LookupP | Op::Remove(_) => [bits(facts.current, mask::EXECUTE), None],
        Op::NVerify(args) => [
            bits(facts.current, reading_mask(&args.attributes.set)),
            None,
        ],
        Op::Open(args) => [open_first(&args.claim, facts.current), None],
        Op::Read(_) | Op::ReadLink => [bits(facts.current, mask::READ_DATA), None],
        Op::ReadDir(_) => [bits(facts.current, mask::LIST_DIRECTORY), None],
        Op::Rename(_) => rename_first(facts),
        Op::SetAttr(args) => [
            bits(facts.current, setting_mask(&args.attributes.set, facts)),
            server_time(facts),
        ],
        Op::Verify(args) => [
            bits(facts.current, reading_mask(&args.attributes.set)),
            None,
        ],
        Op::Write(args) => {
            let mask = writing_mask(facts.size, args.offset, args.data.bytes.len() as u64);
            [bits(facts.current, mask), None]
        }
        _ => [None, None],
    }
}

/// The demands of an operation on ACLs once its names have been looked up, in order. They are those after a "then" in
/// the table of `first_demands`. The function allocates nothing. Deciding on the demands reads at most five ACLs.
#[tactic(auto, using(crate::proofs::Most::second_few))]
pub fn second_demands(op: &Op<'_>, facts: &Second) -> [Option<Demand>; 3]
    ensures value { result ≡ specs.second_demands (op_view op.now) facts.now }
    ensures few { specs.lists_in result ≤ specs.most_second }
{
    match op {
        Op::Open(args) => [open_second(args, facts), None, None],
        Op::Remove(_) => [removal(facts.current, facts.child), None, None],
        Op::Rename(_) => rename_second(facts),
        _ => [None, None, None],
    }
}

/// The demands of READDIR on the ACL of an entry as it is listed, for these attributes (RFC 8881, section 18.23). They
/// are READ_ATTRIBUTES and then READ_ACL, each a demand of its own. The function allocates nothing. Deciding on the
/// demands reads the ACL at most twice.
#[tactic(auto, using(crate::proofs::Most::entry_few))]
pub fn entry_demands(asked: &Bitmap, entry: Option<Object>) -> [Option<Demand>; 2]
    ensures value { result ≡ specs.entry_demands (bitmap_value asked.now) entry }
    ensures few { specs.lists_in result ≤ specs.most_of_entry }
{
    let attributes = attributes_mask(asked);
    let list = list_mask(asked);
    [bits(entry, attributes), bits(entry, list)]
}

// ---- demands

/// Permissions on an object. `None`: no object is given, or no permission.
fn bits(object: Option<Object>, mask: u32) -> Option<Demand>
    ensures { result ≡ specs.bits object mask }
{
    match object {
        Some(Object { number, .. }) if mask != 0 => Some(Demand::Bits {
            object: number,
            mask,
        }),
        _ => None,
    }
}

/// The removal of a name of the target from the parent. `None`: one of them doesn't exist.
fn removal(parent: Option<Object>, target: Option<Object>) -> Option<Demand>
    ensures { result ≡ specs.removal parent target }
{
    match (parent, target) {
        (Some(parent), Some(target)) => Some(Demand::Removal {
            parent: parent.number,
            target: target.number,
        }),
        _ => None,
    }
}

/// The setting of a time of the current object to the server's own. `None`: no time is set or the client's is, or the
/// object doesn't exist.
fn server_time(facts: &First) -> Option<Demand>
    ensures { result ≡ specs.server_time facts.now }
{
    match (facts.clock, facts.current) {
        (Some(Clock::Server), Some(current)) => Some(Demand::ServerTime {
            object: current.number,
        }),
        _ => None,
    }
}

// ---- the permissions that depend on the arguments

/// READ_ATTRIBUTES, if one of these attributes needs it.
fn attributes_mask(set: &Bitmap) -> u32
    ensures { result ≡ if specs.has_any (bitmap_value set.now) specs.governed then mask.READ_ATTRIBUTES else 0 }
{
    if has_any(set, &READ_BY_ATTRIBUTES) {
        mask::READ_ATTRIBUTES
    } else {
        0
    }
}

/// READ_ACL, if one of these attributes needs it.
fn list_mask(set: &Bitmap) -> u32
    ensures { result ≡ if specs.has_any (bitmap_value set.now) specs.list_giving then mask.READ_ACL else 0 }
{
    if has_any(set, &READ_BY_ACL) {
        mask::READ_ACL
    } else {
        0
    }
}

/// The permissions for reading these attributes.
fn reading_mask(set: &Bitmap) -> u32
    ensures { result ≡ specs.reading_mask (bitmap_value set.now) }
{
    attributes_mask(set) | list_mask(set)
}

/// The attributes that are returned for an object, by whether READ_ATTRIBUTES (`attributes`) and READ_ACL (`list`) are
/// granted. Those of times and of space are among them. Attributes that need a permission which isn't granted are left
/// out (RFC 8881, section 6.2.1.3.1).
pub fn granted_attributes(attributes: bool, list: bool) -> Bitmap
    ensures { bitmap_value result ≡ specs.granted_words attributes list }
{
    let mut set = Bitmap::supported(true);
    if !attributes {
        set = set.without(&READ_BY_ATTRIBUTES);
    }
    if !list {
        set = set.without(&READ_BY_ACL);
    }
    set
}

/// Whether one of these attributes is in the set.
fn has_any(set: &Bitmap, numbers: &[u32]) -> bool
    ensures { result ≡ specs.has_any (bitmap_value set.now) numbers.now }
{
    numbers.iter().any(|number| set.has(*number))
}

/// The permissions for setting these attributes. A time of the client's needs WRITE_ATTRIBUTES.
fn setting_mask(set: &Bitmap, facts: &First) -> u32
    ensures { result ≡ specs.setting_mask (bitmap_value set.now) facts.now }
{
    let size = if set.has(Attribute::Size.number()) {
        sizing_mask(facts.size, facts.new_size)
    } else {
        0
    };
    let list = if has_any(set, &SET_BY_ACL) {
        mask::WRITE_ACL
    } else {
        0
    };
    let owner = if has_any(set, &SET_BY_OWNER) {
        mask::WRITE_OWNER
    } else {
        0
    };
    let time = match facts.clock {
        Some(Clock::Client) => mask::WRITE_ATTRIBUTES,
        Some(Clock::Server) | None => 0,
    };
    size | list | owner | time
}

/// The permissions for setting a size: growing needs APPEND_DATA too.
fn sizing_mask(size: Option<u64>, new_size: Option<u64>) -> u32
    ensures { result ≡ specs.sizing_mask size new_size }
{
    match (size, new_size) {
        (Some(size), Some(new)) if new <= size => mask::WRITE_DATA,
        _ => mask::WRITE_DATA | mask::APPEND_DATA,
    }
}

/// The permissions for writing `count` bytes.
fn writing_mask(size: Option<u64>, offset: u64, count: u64) -> u32
    ensures { result ≡ specs.writing_mask size offset count }
{
    let Some(size) = size else {
        return mask::WRITE_DATA | mask::APPEND_DATA;
    };
    if count == 0 {
        mask::WRITE_DATA
    } else if offset == size {
        mask::APPEND_DATA
    } else if offset <= size && count <= size - offset {
        mask::WRITE_DATA
    } else {
        mask::WRITE_DATA | mask::APPEND_DATA
    }
}

/// The permission for adding a name of an object of this type.
fn adding_mask(kind: Kind) -> u32
    ensures { result ≡ specs.adding_mask kind }
{
    match kind {
        Kind::Directory => mask::ADD_SUBDIRECTORY,
        Kind::File | Kind::Link => mask::ADD_FILE,
    }
}

/// The permissions for creating an object of this type. CREATE makes only directories and links.
fn creating_mask(kind: &CreateType<'_>) -> u32
    ensures { result ≡ specs.creating_mask (created (create_type_value kind.now)) }
{
    match kind {
        CreateType::Directory => mask::EXECUTE | mask::ADD_SUBDIRECTORY,
        CreateType::Link(_) => mask::EXECUTE | mask::ADD_FILE,
        _ => 0,
    }
}

// ---- OPEN (RFC 8881, section 18.16)

/// The demand of OPEN on the directory, if it looks up a name.
fn open_first(claim: &OpenClaim<'_>, current: Option<Object>) -> Option<Demand>
    ensures { result ≡ specs.open_first (parts.claim (open_claim_value claim.now)) current }
{
    match claim {
        OpenClaim::ByName(_) => bits(current, mask::EXECUTE),
        OpenClaim::ByHandle => None,
    }
}

/// The demand of OPEN on the file, or on the directory to create it.
fn open_second(args: &OpenArgs<'_>, facts: &Second) -> Option<Demand>
    ensures { result ≡ specs.open_second (parts.claim (open_claim_value args.now.claim)) args.now.access
        (parts.how (open_how_value args.now.how)) facts.now }
{
    match args.claim {
        OpenClaim::ByName(_) => opening(facts.child, args.access, &args.how, facts),
        OpenClaim::ByHandle => {
            let mask = opening_mask(args.access, &args.how, facts.new_size);
            bits(facts.current, mask)
        }
    }
}

/// The demand for opening the child of a directory, or for creating it.
fn opening(child: Option<Object>, access: u32, how: &OpenHow<'_>, facts: &Second) -> Option<Demand>
    ensures { result ≡ specs.opening child access (parts.how (open_how_value how.now)) facts.now }
{
    if child.is_some() {
        bits(child, opening_mask(access, how, facts.new_size))
    } else if is_creating(how) {
        bits(facts.current, mask::ADD_FILE)
    } else {
        None
    }
}

/// The permissions for opening a file.
fn opening_mask(access: u32, how: &OpenHow<'_>, new_size: Option<u64>) -> u32
    ensures { result ≡ specs.opening_mask access (parts.how (open_how_value how.now)) new_size }
{
    let low = access % 256;
    let read = if low == 1 || low == 3 {
        mask::READ_DATA
    } else {
        0
    };
    let write = if low == 2 || low == 3 {
        mask::APPEND_DATA
    } else {
        0
    };
    let truncate = if is_truncating(how, new_size) {
        mask::WRITE_DATA
    } else {
        0
    };
    read | write | truncate
}

/// Whether the file may be created.
fn is_creating(how: &OpenHow<'_>) -> bool
    ensures { result ≡ specs.is_creating (parts.how (open_how_value how.now)) }
{
    match how {
        OpenHow::NoCreate => false,
        OpenHow::Unchecked(_) | OpenHow::Guarded(_) => true,
    }
}

/// Whether an existing file is truncated.
fn is_truncating(how: &OpenHow<'_>, new_size: Option<u64>) -> bool
    ensures { result ≡ specs.is_truncating (parts.how (open_how_value how.now)) new_size }
{
    match how {
        OpenHow::Unchecked(_) => new_size == Some(0),
        OpenHow::NoCreate | OpenHow::Guarded(_) => false,
    }
}

// ---- RENAME (RFC 8881, section 18.26)

/// The demands of RENAME on the two directories.
fn rename_first(facts: &First) -> [Option<Demand>; 2]
    ensures { result ≡ specs.rename_first facts.now }
{
    let target = if is_one(facts.saved, facts.current) {
        None
    } else {
        bits(facts.current, mask::EXECUTE)
    };
    [bits(facts.saved, mask::EXECUTE), target]
}

/// The demands of RENAME for the names that it removes and adds.
fn rename_second(facts: &Second) -> [Option<Demand>; 3]
    ensures { result ≡ specs.rename_second facts.now }
{
    let added = match facts.child {
        Some(child) => adding_mask(child.kind),
        None => 0,
    };
    [
        removal(facts.saved, facts.child),
        bits(facts.current, added),
        removal(facts.current, facts.replaced),
    ]
}

/// Whether both exist and are the same object.
fn is_one(a: Option<Object>, b: Option<Object>) -> bool
    ensures { result ≡ specs.is_one a b }
{
    match (a, b) {
        (Some(a), Some(b)) => a.number == b.number,
        _ => false,
    }
}
