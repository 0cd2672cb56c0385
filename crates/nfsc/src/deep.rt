//! Commands over an object and all below it, and directories that are created with their missing
//! parents.
use crate::around::Around;
use crate::fault::Fault;
use crate::judged::keeps_rights;
use crate::printable::Printable;
use crate::printing::Place;
use crate::tree::{Kind, Object, Tree, Unlisted};
use crate::{facl, object};
use nfs_client::{Answer, Client, ToolFault, Transport, read_mode};
use nfs_types::Status;
use std::alloc::Global;
use std::io;
use std::io::Write;

/// A command over an object and all below it.
#[derive(Clone, Copy)]
pub(crate) enum Deep<'a> {
    /// `list -R P`: prints the lines of everything below a directory.
    List,
    /// `chmod -R OCTAL P`.
    ChMod(&'a [u8]),
    /// `setfacl -R P ENTRY..`.
    SetFacl(&'a [&'a [u8]]),
    /// `rm -R P`.
    Rm,
}

/// How a command over an object and all below it is run.
#[derive(Clone, Copy)]
pub(crate) struct Manner {
    /// Only prints what would be done.
    pub(crate) is_dry: bool,
    /// Sets ACLs even if their user can't change them back.
    pub(crate) is_forced: bool,
}

/// How a command's faults are reported: what prints them, and the line of a batch that they are of.
#[derive(Drop)]
pub(crate) struct Voice<'a, R> {
    pub(crate) rt: &'a R,
    pub(crate) place: Place,
    /// The progress of a command is reported too.
    pub(crate) is_watched: bool,
}

/// The number of objects between two progress reports.
const STRIDE: usize = 100;

impl<R: Eprint> Voice<'_, R> {
    /// Reports what is wrong with one object.
    fn report(&self, path: &[u8], fault: ToolFault) -> Result<(), Fault> {
        let (rt, place) = (self.rt, self.place);
        let why = Fault::Tool(fault).sentence();
        match eprintln!(rt; "nfsc: {place}{}: {why}", Printable(path)) {
            Ok(()) => Ok(()),
            Err(_) => Err(Fault::Missing),
        }
    }

    /// Reports the first object whose access control list (ACL) its user couldn't change back.
    fn report_locked(&self, path: &[u8]) -> Result<(), Fault> {
        let (rt, place) = (self.rt, self.place);
        match eprintln!(rt;
            "nfsc: {place}{} would be locked; nothing was changed",
            Printable(path)
        ) {
            Ok(()) => Ok(()),
            Err(_) => Err(Fault::Missing),
        }
    }

    /// Reports the size of a file.
    pub(crate) fn report_size(&self, path: &[u8], size: u64) {
        let (rt, place) = (self.rt, self.place);
        let _ = eprintln!(rt; "nfsc: {place}{} has {size} bytes now", Printable(path));
    }

    /// Reports that a file may have only a part of the sent bytes.
    pub(crate) fn report_part(&self, path: &[u8]) {
        let (rt, place) = (self.rt, self.place);
        let _ = eprintln!(rt;
            "nfsc: {place}{} may have only a part of the bytes now",
            Printable(path)
        );
    }

    /// Reports how many objects of all are done, on a line that the next report overwrites.
    fn report_done(&self, done: usize, all: usize) {
        let rt = self.rt;
        if self.is_watched && all > STRIDE && done % STRIDE == 0 {
            let _ = eprint!(rt; "\rnfsc: {done} of {all}");
        }
    }

    /// Clears that line.
    fn clear(&self, all: usize) {
        let rt = self.rt;
        if self.is_watched && all > STRIDE {
            let _ = eprint!(rt; "\r\x1b[K");
        }
    }

    /// Reports the directories that can't be listed.
    fn report_unlisted(&self, unlisted: &[Unlisted]) -> Result<(), Fault> {
        for directory in unlisted {
            self.report(directory.path.as_slice(), directory.fault)?;
        }
        Ok(())
    }
}

/// The change of each object.
#[derive(Drop)]
enum Change<'a> {
    ChMod(&'a [u8]),
    /// The ACL's entries as text, for a directory and for another object.
    SetFacl(Vec<Vec<u8>>, Vec<Vec<u8>>),
    Rm,
}

impl<'a> Change<'a> {
    /// The requested change, before anything is asked of the server. `None`: it changes nothing.
    fn of(alloc: Global, deep: Deep<'a>, path: &[u8]) -> Result<Option<Self>, Fault> {
        match deep {
            Deep::List => Ok(None),
            Deep::ChMod(mode) if read_mode(mode).is_none() => Err(Fault::Tool(ToolFault::Entry)),
            Deep::ChMod(mode) => Ok(Some(Change::ChMod(mode))),
            Deep::SetFacl(entries) => {
                let directory = facl::texts_of(alloc, acl_list::Kind::Directory, entries)?;
                let other = facl::texts_of(alloc, acl_list::Kind::File, entries)?;
                Ok(Some(Change::SetFacl(directory, other)))
            }
            Deep::Rm if path == b"/".as_slice() => Err(Fault::Root),
            Deep::Rm => Ok(Some(Change::Rm)),
        }
    }

    /// Whether the change applies to this object: a symbolic link has no mode and no ACL to be set.
    fn is_of(&self, object: &Object) -> bool {
        match self {
            Change::Rm => true,
            Change::ChMod(_) | Change::SetFacl(_, _) => object.kind != Kind::Link,
        }
    }

    /// The entries that the change gives an object, if it is one of ACLs.
    fn entries(&self, object: &Object) -> Option<&[Vec<u8>]> {
        match (self, object.kind) {
            (Change::SetFacl(directory, _), Kind::Directory) => Some(directory.as_slice()),
            (Change::SetFacl(_, other), Kind::Other) => Some(other.as_slice()),
            _ => None,
        }
    }

    /// Changes one object.
    fn act<S: Transport>(
        &self,
        client: &mut Client<S>,
        alloc: Global,
        object: &Object,
    ) -> Result<(), Fault> {
        let path = object.path.as_slice();
        match self {
            Change::ChMod(mode) => Ok(client.chmod(mode, path)?),
            Change::SetFacl(directory, other) => match object.kind {
                Kind::Directory => facl::set(client, alloc, path, directory.as_slice()),
                Kind::Link | Kind::Other => facl::set(client, alloc, path, other.as_slice()),
            },
            Change::Rm => Ok(client.rm(path)?),
        }
    }

    /// Puts the line that describes the change of an object.
    fn put(&self, alloc: Global, out: &mut Vec<u8>, object: &Object) -> Result<(), Fault> {
        out.extend_from_slice(match self {
            Change::ChMod(_) => b"chmod ",
            Change::SetFacl(_, _) => b"setfacl ",
            Change::Rm => b"rm ",
        })?;
        if let Change::ChMod(mode) = self {
            out.extend_from_slice(mode)?;
            out.extend_from_slice(b" ")?;
        }
        put_path(alloc, out, object.path.as_slice())
    }
}

/// Puts a path as it is printed, and a newline.
fn put_path(alloc: Global, out: &mut Vec<u8>, path: &[u8]) -> Result<(), Fault> {
    let text = format!(in alloc; "{}\n", Printable(path))?;
    out.extend_from_slice(text.as_bytes())?;
    Ok(())
}

/// The object at a path, and all below it: each directory comes before its contents.
fn tree_at<S: Transport>(
    client: &mut Client<S>,
    alloc: Global,
    path: &[u8],
) -> Result<Tree, Fault> {
    let is_directory = facl::is_directory(client, path)?;
    let mut objects = Vec::new(alloc);
    let mut own = Vec::new(alloc);
    own.extend_from_slice(path)?;
    objects.push(Object {
        path: own,
        kind: if is_directory {
            Kind::Directory
        } else {
            Kind::Other
        },
        columns: String::new(alloc),
    })?;
    let mut unlisted = Vec::new(alloc);
    if is_directory {
        let tree = Tree::below(client, alloc, path)?;
        for object in tree.objects {
            objects.push(object)?;
        }
        unlisted = tree.unlisted;
    }
    Ok(Tree { objects, unlisted })
}

/// The lines of a directory's contents by their names, or the line of another object by its path.
pub(crate) fn list_one<S: Transport>(
    client: &mut Client<S>,
    alloc: Global,
    path: &[u8],
) -> Result<Answer, Fault> {
    let mut text = Vec::new(alloc);
    if facl::is_directory(client, path)? {
        let tree = Tree::within(client, alloc, path)?;
        for found in &tree.objects {
            let name = name_of(found.path.as_slice());
            object::put_found(client, alloc, &mut text, found, name)?;
        }
    } else {
        object::put_line(client, alloc, &mut text, path)?;
    }
    Ok(Answer::Text(text))
}

/// The last name of a path.
fn name_of(path: &[u8]) -> &[u8] {
    path.rsplit(|byte| *byte == b'/').next().unwrap_or(path)
}

/// Whether the object of a path has this file ID. One that the caller can't reach doesn't.
fn has_number<S: Transport>(
    client: &mut Client<S>,
    path: &[u8],
    number: u64,
) -> Result<bool, Fault> {
    match object::attributes(client, path) {
        Ok(given) => Ok(object::read(&given)?.number == Some(number)),
        Err(Fault::Tool(ToolFault::Refused(_, _))) => Ok(false),
        Err(fault) => Err(fault),
    }
}

/// Prints the paths of the object with a file ID, by examining each object below the root.
pub(crate) fn paths_of<S: Transport, R: Print + Eprint>(
    client: &mut Client<S>,
    voice: Voice<'_, R>,
    alloc: Global,
    number: u64,
) -> Result<Answer, Fault> {
    let root = b"/";
    let mut text = Vec::new(alloc);
    if has_number(client, root, number)? {
        put_path(alloc, &mut text, root)?;
    }
    let tree = Tree::below(client, alloc, root)?;
    for found in &tree.objects {
        let path = found.path.as_slice();
        if has_number(client, path, number)? {
            put_path(alloc, &mut text, path)?;
        }
    }
    if text.is_empty() {
        voice.report_unlisted(tree.unlisted.as_slice())?;
        return Err(Fault::NoObject);
    }
    Ok(Answer::Text(text))
}

/// Prints the lines of everything below a directory, as `list` does with the path in place of the
/// name.
fn list<S: Transport, R: Print + Eprint>(
    client: &mut Client<S>,
    voice: Voice<'_, R>,
    alloc: Global,
    path: &[u8],
) -> Result<Answer, Fault> {
    let tree = Tree::below(client, alloc, path)?;
    let mut text = Vec::new(alloc);
    for found in &tree.objects {
        let path = found.path.as_slice();
        object::put_found(client, alloc, &mut text, found, path)?;
    }
    if tree.unlisted.is_empty() {
        return Ok(Answer::Text(text));
    }
    if io::writer(voice.rt).write_all(text.as_slice()).is_err() {
        return Err(Fault::Missing);
    }
    voice.report_unlisted(tree.unlisted.as_slice())?;
    Err(Fault::Partly(tree.unlisted.len()))
}

/// Changes the objects, the last one first: a directory changes after its contents. A refusal is
/// reported, and the others continue.
fn change_all<S: Transport, R: Eprint>(
    client: &mut Client<S>,
    voice: Voice<'_, R>,
    alloc: Global,
    wanted: &Change<'_>,
    objects: &[Object],
) -> Result<Answer, Fault> {
    let mut refused = 0usize;
    for (done, object) in objects.iter().rev().enumerate() {
        voice.report_done(done, objects.len());
        if wanted.is_of(object) {
            match wanted.act(client, alloc, object) {
                Ok(()) => {}
                Err(Fault::Tool(fault @ ToolFault::Refused(_, _))) => {
                    voice.report(object.path.as_slice(), fault)?;
                    refused = refused.saturating_add(1);
                }
                Err(fault) => return Err(fault),
            }
        }
    }
    voice.clear(objects.len());
    if refused == 0 {
        Ok(Answer::Done)
    } else {
        Err(Fault::Partly(refused))
    }
}

/// `Locked`: after the change the caller could no longer read the ACL of an object and change it
/// again. The first such object is reported.
fn keep_rights<S: Transport, R: Eprint>(
    client: &mut Client<S>,
    voice: &Voice<'_, R>,
    alloc: Global,
    around: &Around,
    (wanted, objects): (&Change<'_>, &[Object]),
) -> Result<(), Fault> {
    for object in objects {
        if let Some(entries) = wanted.entries(object) {
            let path = object.path.as_slice();
            match keeps_rights(client, alloc, around, path, entries) {
                Ok(()) => {}
                Err(Fault::Locked) => {
                    voice.report_locked(path)?;
                    return Err(Fault::Locked);
                }
                Err(fault) => return Err(fault),
            }
        }
    }
    Ok(())
}

/// The lines that describe the changes, in order.
fn plan(alloc: Global, wanted: &Change<'_>, objects: &[Object]) -> Result<Answer, Fault> {
    let mut text = Vec::new(alloc);
    for object in objects.iter().rev() {
        if wanted.is_of(object) {
            wanted.put(alloc, &mut text, object)?;
        }
    }
    Ok(Answer::Text(text))
}

/// Changes the object at a path and all below it, or prints what would be done. Everything is
/// listed before anything is changed. If a directory can't be listed, nothing is changed. Nor is
/// anything if an ACL would leave the caller without the permission to change it again, unless the
/// command is forced.
pub(crate) fn run<S: Transport, R: Print + Eprint>(
    client: &mut Client<S>,
    voice: Voice<'_, R>,
    alloc: Global,
    around: &Around,
    (deep, manner, path): (Deep<'_>, Manner, &[u8]),
) -> Result<Answer, Fault> {
    let Some(wanted) = Change::of(alloc, deep, path)? else {
        return list(client, voice, alloc, path);
    };
    let tree = tree_at(client, alloc, path)?;
    if !tree.unlisted.is_empty() {
        voice.report_unlisted(tree.unlisted.as_slice())?;
        return Err(Fault::Unlisted);
    }
    let objects = tree.objects.as_slice();
    if !manner.is_forced {
        keep_rights(client, &voice, alloc, around, (&wanted, objects))?;
    }
    if manner.is_dry {
        plan(alloc, &wanted, objects)
    } else {
        change_all(client, voice, alloc, &wanted, objects)
    }
}

/// Makes a directory, or finds that another client made it meanwhile.
fn make<S: Transport>(client: &mut Client<S>, path: &[u8]) -> Result<(), Fault> {
    match client.mkdir(path) {
        Ok(()) | Err(ToolFault::Refused(_, Status::Exist)) => Ok(()),
        Err(fault) => Err(Fault::Tool(fault)),
    }
}

/// Whether an object exists at a path.
fn is_there<S: Transport>(client: &mut Client<S>, path: &[u8]) -> Result<bool, Fault> {
    match client.access(path) {
        Ok(_) => Ok(true),
        Err(ToolFault::Refused(_, Status::NoEnt)) => Ok(false),
        Err(fault) => Err(Fault::Tool(fault)),
    }
}

/// Makes a directory and its missing parents. An existing directory is unchanged.
pub(crate) fn make_all<S: Transport>(client: &mut Client<S>, path: &[u8]) -> Result<(), Fault> {
    if is_there(client, path)? {
        if facl::is_directory(client, path)? {
            return Ok(());
        }
        return Ok(client.mkdir(path)?);
    }
    let mut is_here = true;
    for (index, byte) in path.iter().enumerate() {
        if *byte == b'/' && index > 0 {
            let above = path.get(..index).unwrap_or(path);
            is_here = is_here && is_there(client, above)?;
            if !is_here {
                make(client, above)?;
            }
        }
    }
    make(client, path)
}
