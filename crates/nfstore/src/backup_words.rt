//! The words for a backup: the counts of the copy, or the reason why there is none.
use crate::backing_up::{Made, Refused};
use crate::places::{Source, Target};
use crate::unlocked::{TRIES, Unread};
use std::{io, str};
use trail_keeper::moment_text;

/// Prints what a backup has, and of which moment it is.
pub(crate) fn print_made<R: Print>(rt: &R, target: &Target<'_>, made: Made) -> io::Result<()> {
    let text = moment_text(made.begun);
    let moment = str::from_utf8(&text).unwrap_or("").trim_end();
    let (folder, objects, bytes) = (target.folder, made.whole.objects, made.whole.bytes);
    println!(rt;
        "{folder}: it is whole as of {moment}, when it began: objects {objects}, bytes of files {bytes}"
    )
}

/// Reports why there is no backup: the path, and what is wrong there.
pub(crate) fn report_refused<R: Eprint>(
    rt: &R,
    source: &Source<'_>,
    target: &Target<'_>,
    refused: &Refused,
) {
    let (store, copy) = (source.store.as_str(), target.store.as_str());
    let (folder, fresh) = (target.folder, target.fresh.as_str());
    let _ = match refused {
        Refused::Taken => {
            eprintln!(rt;
                "nfstore: {folder}: it is there already; give the name of a folder that isn't"
            )
        }
        Refused::Begun => eprintln!(rt;
            "nfstore: {fresh}: it is there already, of a backup that is being made or was broken off; \
             remove it if none is being made"
        ),
        Refused::Nothing => eprintln!(rt; "nfstore: {store}: nothing is kept yet"),
        Refused::Unread(Unread::Stop(stop)) => eprintln!(rt; "nfstore: {store}{stop}"),
        Refused::Unread(Unread::Changing) => eprintln!(rt;
            "nfstore: {store}: a server has changed it each of the {TRIES} times that it was read; try again"
        ),
        Refused::Source(stop) => eprintln!(rt; "nfstore: {store}{stop}"),
        Refused::Copy(stop) => eprintln!(rt; "nfstore: {copy}{stop}"),
        Refused::Stopped(stopped) => {
            let path = match &stopped.path {
                Some(path) => path.as_str(),
                None => folder,
            };
            let fault = &stopped.fault;
            eprintln!(rt; "nfstore: {path}: {fault}")
        }
    };
}
