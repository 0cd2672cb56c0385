//! Tests of access control lists in words, and of reasons: `acl_words` and `acl_reasons`.
#![tactic(auto)]

#[cfg(test)]
mod reasons;
#[cfg(test)]
mod words;
