//! The permissions that `why` and `who` are asked about (RFC 8881, section 6.2.1.3.1).
use acl_list::{Kind, mask};
use acl_words::{RIGHTS, Words, right_name};
use std::fmt;
use std::fmt::{Display, Formatter};

/// The permissions of a mask, by their names on an object of this type, the lowest first.
#[derive(Clone, Copy)]
pub(crate) struct Named {
    pub(crate) mask: u32,
    pub(crate) object: Kind,
}

impl Display for Named {
    fn fmt<W: fmt::Write>(&self, f: &mut Formatter<W>) -> fmt::Result {
        let mut is_first = true;
        for bit in RIGHTS {
            if let Some(name) = right_name(self.object, self.mask & bit) {
                f.write_str(if is_first { "" } else { ", " })?;
                f.write_str(name)?;
                is_first = false;
            }
        }
        Ok(())
    }
}

/// Whether a word is the name of a permission, on a directory or on any other object.
fn is_name_of(word: &str, right: u32) -> bool {
    right_name(Kind::Directory, right) == Some(word) || right_name(Kind::File, right) == Some(word)
}

/// The permission that a word names.
fn bit_of(word: &str) -> Option<u32> {
    match word {
        "read" | "list" => Some(mask::READ_DATA),
        "write" => Some(mask::WRITE_DATA),
        "append" => Some(mask::APPEND_DATA),
        "search" => Some(mask::EXECUTE),
        _ => {
            for bit in RIGHTS {
                if is_name_of(word, bit) {
                    return Some(bit);
                }
            }
            None
        }
    }
}

/// The mask of words with commas between them.
fn mask_of_words(text: &str) -> Option<u32> {
    let mut rights = 0;
    for word in text.split(',') {
        rights |= bit_of(word)?;
    }
    Some(rights)
}

/// The mask of the permission letters of an access control entry (ACE).
fn mask_of_letters(object: Kind, entry: &str) -> Option<u32> {
    match Words::read(object, entry.as_bytes()) {
        Ok(words) if words.mask & !mask::DEFINED == 0 => Some(words.mask),
        _ => None,
    }
}

/// The mask of a word on an object of this type: of names with commas between them, or of letters.
/// The ACE is `A::EVERYONE@:` and the word.
fn mask_in(object: Kind, text: &str, entry: &str) -> Option<u32> {
    if text.contains(':') {
        return None;
    }
    let found = match mask_of_words(text) {
        Some(rights) => rights,
        None => mask_of_letters(object, entry)?,
    };
    (found != 0).then_some(found)
}

/// A question of `why` and `who`.
#[derive(Clone, Copy)]
pub(crate) enum Rights {
    /// Whether the object's name may be removed, as `rm` and `mv` do: two access control lists
    /// decide that (section 6.2.1.3.2).
    Removal,
    /// Permissions by their masks, on a directory and on any other object: the letter `W` has
    /// another meaning on a directory.
    Masks { on_directory: u32, on_other: u32 },
}

impl Rights {
    /// The question of a word. The ACE is `A::EVERYONE@:` and the word. `None`: the word names no
    /// permission.
    pub(crate) fn read(text: &str, entry: &str) -> Option<Self> {
        if text == "delete" || text == "remove" {
            return Some(Rights::Removal);
        }
        Some(Rights::Masks {
            on_directory: mask_in(Kind::Directory, text, entry)?,
            on_other: mask_in(Kind::File, text, entry)?,
        })
    }

    /// The mask on an object of this type. `None`: the question is about the removal of a name.
    pub(crate) fn mask(self, object: Kind) -> Option<u32> {
        match self {
            Rights::Removal => None,
            Rights::Masks {
                on_directory,
                on_other,
            } => Some(match object {
                Kind::Directory => on_directory,
                Kind::File | Kind::Link => on_other,
            }),
        }
    }
}
