//! One open folder, and the journal in it.
use crate::words::{content_text, number_of, slot_of, split_word, stop_text};
use std::alloc::Global;
use std::test::Fail;
use store_folder::{FolderFault, StoreFolder, StoreStop, frames_of};
use store_journal::{Current, Disk, Journal, JournalFault, Loaded, OpenFault, choose, load};

/// The folder of the host's file system.
type Folder<'r> = StoreFolder<&'r HostRuntime>;

/// An open folder, if any, and the journal that was found in it.
#[derive(Drop)]
pub(crate) struct Desk<'r> {
    rt: &'r HostRuntime,
    alloc: Global,
    path: String,
    folder: Option<Folder<'r>>,
    journal: Option<Journal>,
}

/// The machine's number of a new store.
const MACHINE: u64 = 7;

impl<'r> Desk<'r> {
    pub(crate) fn new(rt: &'r HostRuntime) -> Self {
        let alloc = rt.alloc();
        Desk {
            rt,
            alloc,
            path: String::new(alloc),
            folder: None,
            journal: None,
        }
    }

    fn text(&self, text: &str) -> Result<String, Fail> {
        Ok(format!(in self.alloc; "{text}")?)
    }

    /// The text of a stop, as a line.
    fn stopped(&self, stop: &StoreStop) -> Result<String, Fail> {
        stop_text(self.alloc, self.path.as_str(), stop)
    }

    /// The outcome of opening.
    fn opened(&mut self, gave: Result<Folder<'r>, FolderFault>) -> Result<String, Fail> {
        match gave {
            Ok(folder) => {
                let printed = match folder.new_identity() {
                    Some(_) => "new",
                    None => "open",
                };
                self.folder = Some(folder);
                self.text(printed)
            }
            Err(fault) => {
                let stop = StoreStop::from(fault);
                self.stopped(&stop)
            }
        }
    }

    fn open(&mut self, path: &str) -> Result<String, Fail> {
        self.path = self.text(path)?;
        let gave = StoreFolder::open(self.rt, path);
        self.opened(gave)
    }

    fn read(&mut self, path: &str) -> Result<String, Fail> {
        self.path = self.text(path)?;
        let gave = StoreFolder::open_to_read(self.rt, path);
        self.opened(gave)
    }

    fn close(&mut self) -> Result<String, Fail> {
        self.folder = None;
        self.journal = None;
        self.text("closed")
    }

    /// Loads the store. With `resume` the journal is resumed.
    fn load(&mut self, resumes: bool) -> Result<String, Fail> {
        let alloc = self.alloc;
        let Some(folder) = &mut self.folder else {
            return Err(Fail::new("no folder is open"));
        };
        let loaded = match load(folder, alloc) {
            Ok(loaded) => loaded,
            Err(fault) => return self.unopened(fault),
        };
        let Loaded { current, bytes } = loaded;
        let Some(current) = current else {
            let Some(identity) = folder.new_identity() else {
                return self.text("none");
            };
            self.journal = Some(Journal::new(Current::new(identity, MACHINE)));
            return self.text("none");
        };
        if current.generation == 0 {
            let printed = format!(in alloc; "begun {}", current.begun)?;
            self.journal = Some(Journal::new(current));
            return Ok(printed);
        }
        let frames = frames_of(current.identity, current.generation, bytes.as_slice());
        let chosen = match choose(alloc, current, bytes.as_slice()) {
            Ok(chosen) => chosen,
            Err(fault) => return self.unopened(fault),
        };
        let printed = content_text(
            alloc,
            &chosen.current,
            chosen.parts.as_slice(),
            chosen.records.as_slice(),
            &chosen.position,
        )?;
        if frames.frames != chosen.position.place.number {
            return self.text("what stands isn't what was chosen");
        }
        if resumes {
            match Journal::resume(folder, alloc, &chosen) {
                Ok(journal) => self.journal = Some(journal),
                Err(fault) => return self.went(Err(fault)),
            }
        }
        Ok(printed)
    }

    /// The text that a program prints for a store that it can't open.
    fn unopened(&mut self, fault: OpenFault) -> Result<String, Fail> {
        let alloc = self.alloc;
        let Some(folder) = &mut self.folder else {
            return Err(Fail::new("no folder is open"));
        };
        let stop = StoreStop::refused(alloc, folder, fault);
        self.stopped(&stop)
    }

    /// The outcome of a call of the disk or of the journal that may have failed.
    fn went(&mut self, gave: Result<(), JournalFault>) -> Result<String, Fail> {
        match gave {
            Ok(()) => self.text("ok"),
            Err(JournalFault::Failed) => {
                let Some(folder) = &mut self.folder else {
                    return Err(Fail::new("no folder is open"));
                };
                let stop = StoreStop::failed(folder);
                self.stopped(&stop)
            }
            Err(fault) => Ok(format!(in self.alloc; "refused: {fault}")?),
        }
    }

    /// A call of the journal.
    fn journal(&mut self, word: &str, rest: &str) -> Result<String, Fail> {
        let alloc = self.alloc;
        let (Some(folder), Some(journal)) = (&mut self.folder, &mut self.journal) else {
            return Err(Fail::new("no folder is open"));
        };
        let gave = match word {
            "begin" => journal.begin(folder, alloc),
            "part" => journal.part(folder, alloc, rest.as_bytes()),
            "finish" => journal.finish(folder, alloc, number_of(rest)?),
            "append" => journal.append(folder, alloc, rest.as_bytes()),
            "mark" => journal.mark(folder, alloc),
            "fill" => {
                let mut bytes = Vec::new(alloc);
                bytes.resize(number_of(rest)? as usize, b'x')?;
                journal.append(folder, alloc, bytes.as_slice())
            }
            _ => return Err(Fail::new("a line that isn't known")),
        };
        self.went(gave)
    }

    /// A call of the disk.
    fn disk(&mut self, word: &str, rest: &str) -> Result<String, Fail> {
        let Some(folder) = &mut self.folder else {
            return Err(Fail::new("no folder is open"));
        };
        let (first, text) = split_word(rest);
        let good = match word {
            "write" => {
                let (at, text) = split_word(text);
                folder.write(slot_of(first)?, number_of(at)?, text.as_bytes(), &[], b".")
            }
            "sync" => folder.sync(slot_of(first)?),
            "turn" => folder.turn(rest.as_bytes()),
            _ => return Err(Fail::new("a line that isn't known")),
        };
        self.went(if good {
            Ok(())
        } else {
            Err(JournalFault::Failed)
        })
    }

    /// The answer to a line.
    pub(crate) fn printed(&mut self, line: &str) -> Result<String, Fail> {
        let (word, rest) = split_word(line);
        match word {
            "open" => self.open(rest),
            "read" => self.read(rest),
            "close" => self.close(),
            "load" => self.load(false),
            "resume" => self.load(true),
            "damaged" => self.unopened(OpenFault::Corrupt),
            "write" | "sync" | "turn" => self.disk(word, rest),
            _ => self.journal(word, rest),
        }
    }
}
