//! The head of a checkpoint: its profile, and the text of the book.
ghost use Rattle.std.specs.Prelude.{◌≡◌, ℕ, option_map, Ok, Option, IfOk, MatchOption};
ghost use Rattle.who_book.specs.Document.{book_from};
ghost use Rattle.store_journal.specs.Disk.{Bytes};
ghost use Rattle.checkpoint.specs.Head.{HeadStates, IsHead, IsText};
ghost use Rattle.checkpoint.specs.internal.Reading.{HeadGives, ReadsBook, BookGives};

use crate::fault::CheckpointFault;
use nfs_types::Limits;
use std::alloc::{AllocError, Allocator, Global};
use who_book::{Book, BookFault};
use xdr_wire::{Opaque, Reader, Spell, Wire, Writer};

/// The size of a head in bytes without a book's text: the profile, the flag of the text, its
/// length, and at most three bytes of padding.
const AROUND_TEXT: usize = 4 + 4 + 4 + 3;

/// The text of a book.
type Text<'a> = Opaque<'a, 0xffff_ffff>;

/// The text of a book, if it has one. `Err`: it is longer than 2^32 - 1 bytes.
fn text_of(book: &Book) -> Result<Option<Text<'_>>, AllocError>
    ensures text { IfOk result (λ text. IsText (option_map (λ text. text.bytes.now) text)) }
    ensures book { IfOk result (λ text. book_from (option_map (λ text. text.bytes.now) text) ≡ Ok book.now) }
{
    match book.text() {
        Some(text) => Ok(Some(Text::new(text.as_bytes()).ok_or(AllocError)?)),
        None => Ok(None),
    }
}

/// Writes the head of a checkpoint under these limits, with this book.
pub(crate) fn write_head<A: Allocator + Copy>(
    alloc: A,
    limits: Limits,
    book: &Book,
) -> Result<Vec<u8, A>, AllocError>
    ensures { IfOk result (λ bytes. HeadStates bytes.items limits book.now) }
{
    let text = text_of(book)?;
    let len = text.map_or(0, |text| text.bytes.len());
    let mut writer = Writer::new(alloc, len.saturating_add(AROUND_TEXT))?;
    let Ok(()) = (limits.profile(), text).write(&mut writer) else {
        return Err(AllocError);
    };
    Ok(writer.into_bytes())
}

/// The profile and the text that a head encodes. `None`: the bytes are no head.
fn profile_in<'a>(bytes: &'a [u8]) -> Option<(u32, Option<Text<'a>>)>
    ensures { MatchOption result ((profile : ℕ) (text : Option Bytes) → IsHead bytes.now profile text → ⊥)
        (λ written. IsHead bytes.now written.0 (option_map (λ text. text.bytes.now) written.1)) }
{
    let mut reader = Reader::new(bytes);
    let Ok(written) = <(u32, Option<Text<'a>>)>::read(&mut reader) else {
        return None;
    };
    if !reader.is_empty() {
        return None;
    }
    Some(written)
}

/// The book of a text.
fn read_book(global: Global, text: Option<&str>) -> Result<Book, CheckpointFault>
    ensures { ReadsBook (option_map (λ text. text.now) text.entry) result }
{
    match Book::from_text(global, text) {
        Ok(book) => Ok(book),
        Err(BookFault::Memory) => Err(CheckpointFault::Memory),
        Err(_) => Err(CheckpointFault::Corrupt),
    }
}

/// The book of bytes that should be its text.
fn book_in(global: Global, text: Option<Text<'_>>) -> Result<Book, CheckpointFault>
    ensures { BookGives (option_map (λ text. text.bytes.now) text.entry) result }
{
    let Some(text) = text else {
        return read_book(global, None);
    };
    match str::from_utf8(text.bytes) {
        Ok(text) => read_book(global, Some(text)),
        Err(_) => Err(CheckpointFault::Corrupt),
    }
}

/// The limits of the profile that a head names, and the book that it encodes.
pub(crate) fn head_of(global: Global, bytes: &[u8]) -> Result<(Limits, Book), CheckpointFault>
    ensures { HeadGives bytes.now result }
{
    let Some((profile, text)) = profile_in(bytes) else {
        return Err(CheckpointFault::Corrupt);
    };
    let Some(limits) = Limits::of(profile) else {
        return Err(CheckpointFault::Profile);
    };
    match book_in(global, text) {
        Ok(book) => Ok((limits, book)),
        Err(fault) => Err(fault),
    }
}
