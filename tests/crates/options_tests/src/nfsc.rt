//! The words of `nfsc` and of `nfslab`: words that are accepted, with their options; words that are refused, with the
//! error; the texts of help; the error of words that aren't a command; and the times of `touch`, by `nfsc`'s own
//! `times.rt`.

mod help;
mod host;
mod lab;
mod refused;
mod taken;
mod times;
mod touch;
mod wrong;
