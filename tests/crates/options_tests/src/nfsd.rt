//! The words of `nfsd`: words that are accepted, with their options; words that are refused, with the error; addresses
//! and networks; profiles; and the text of help.

mod help;
mod listening;
mod profiles;
mod refused;
mod taken;
