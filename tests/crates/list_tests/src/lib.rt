//! Tests of access control lists, of the book of names and of sessions: `acl_list`, `acl_shape`, `who_book` and
//! `session_slots`.
#![tactic(auto)]

#[cfg(test)]
mod acl;
#[cfg(test)]
mod book;
#[cfg(test)]
mod session;
