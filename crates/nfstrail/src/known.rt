//! What is known of a home: the names of its book, and the places of its tree.
use crate::home::{Home, Part};
use crate::names::{Names, read_names};
use crate::places::{Place, Places};
use crate::store_now::{Unknown, read_server};
use std::fs::File;
use std::hash::RandomState;
use std::rt::Files;

/// The book and the tree of a home, and whether both are known completely.
#[derive(Drop)]
pub(crate) struct Known {
    pub(crate) names: Names,
    pub(crate) places: Option<Places>,
    pub(crate) is_whole: bool,
}

impl Known {
    /// Whether the tree that was read doesn't have an object yet, or no tree is known.
    pub(crate) fn lacks(&self, object: u64) -> bool {
        match &self.places {
            Some(places) => places.place_of(object) == Place::Later,
            None => true,
        }
    }
}

/// The names of a home. A fault of its book is reported.
fn known_names<R: Files<File = File> + Eprint>(home: &Home<'_, R>) -> Names {
    match read_names(home) {
        Ok(names) => names,
        Err(fault) => {
            let (rt, folder, book) = (home.rt, home.folder, Part::Book);
            let _ = eprintln!(rt; "nfstrail: {folder}/{book}: {fault}; users are numbers here");
            Names::Unknown
        }
    }
}

/// The places of a home's tree. `None`: no checkpoint was finished yet.
pub(crate) fn places_of<R: Files<File = File>>(
    home: &Home<'_, R>,
    hasher: RandomState,
) -> Result<Option<Places>, Unknown> {
    match read_server(home, hasher) {
        Ok(Some(server)) => match Places::new(home.alloc, server) {
            Ok(places) => Ok(Some(places)),
            Err(_) => Err(Unknown::Memory),
        },
        Ok(None) => Ok(None),
        Err(unknown) => Err(unknown),
    }
}

/// Reads the book and the tree of a home. On standard error it reports which isn't known.
pub(crate) fn know<R: Files<File = File> + Eprint>(
    home: &Home<'_, R>,
    hasher: RandomState,
) -> Known {
    let names = known_names(home);
    let has_names = !matches!(names, Names::Unknown);
    match places_of(home, hasher) {
        Ok(places) => Known {
            names,
            places,
            is_whole: has_names,
        },
        Err(unknown) => {
            let (rt, folder) = (home.rt, home.folder);
            let _ = eprintln!(rt; "nfstrail: {folder}/{unknown}; objects are numbers here");
            Known {
                names,
                places: None,
                is_whole: false,
            }
        }
    }
}
