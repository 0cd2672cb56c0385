//! The tests of the book of names: texts with their results, the text of principals, and the groups of callers.

mod books;
mod given;
mod groups;
mod members;
mod spelled;
mod tables;
