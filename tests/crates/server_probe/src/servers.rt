//! Servers of a tree, and books of names.

use compound_run::Server;
use node_tree::Tree;
use std::alloc::{AllocError, Allocator, Global};
use std::hash::RandomState;
use std::num::NonZeroUsize;
use std::test::Fail;
use who_book::Book;

/// A server of this tree, with a book without names.
pub fn server_of<A: Allocator + Copy>(
    alloc: A,
    book: Book,
    tree: Tree<A>,
    hasher: RandomState,
) -> Result<Server<A>, AllocError> {
    let capacity = NonZeroUsize::new(16).unwrap_or(NonZeroUsize::MIN);
    Server::new(alloc, tree, book, capacity, hasher)
}

/// A server of the sample tree.
pub fn sample_server(alloc: Global, hasher: RandomState) -> Result<Server, AllocError> {
    server_of(alloc, Book::default(alloc), Tree::sample(alloc)?, hasher)
}

/// The book of this text; without a text, one without names.
pub fn book_of(alloc: Global, text: &str) -> Result<Book, Fail> {
    if text.is_empty() {
        return Ok(Book::default(alloc));
    }
    Ok(Book::read(alloc, text)?)
}

/// Whether a server loads a book.
pub fn reload<A: Allocator + Copy>(server: &mut Server<A>, book: Book) -> bool {
    server.reload(book).is_ok()
}
