//! Texts and their results. The functions have no contract, so that the prover doesn't compute on a test's text.
use std::alloc::{AllocError, Global};
use who_book::Book;

/// Appends a text `times` times.
pub fn push_times(text: &mut String, piece: &str, times: u32) -> Result<(), AllocError> {
    for _ in 0..times {
        text.push_str(piece)?;
    }
    Ok(())
}

fn push_all(text: &mut String, pieces: &[&str]) -> Result<(), AllocError> {
    for piece in pieces {
        text.push_str(*piece)?;
    }
    Ok(())
}

/// The text of some pieces.
pub fn joined(alloc: Global, pieces: &[&str]) -> Result<String, AllocError> {
    let mut text = String::new(alloc);
    push_all(&mut text, pieces)?;
    Ok(text)
}

/// The number of a text's fault, or 0 if it is a book.
pub fn answer_of(alloc: Global, text: &str) -> u8 {
    match Book::read(alloc, text) {
        Ok(_) => 0,
        Err(fault) => fault as u8,
    }
}

/// The number of the fault of a text of some pieces, or 0 if it is a book.
pub fn answer(alloc: Global, pieces: &[&str]) -> Result<u8, AllocError> {
    let text = joined(alloc, pieces)?;
    Ok(answer_of(alloc, text.as_str()))
}
