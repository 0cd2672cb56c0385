//! Tests of the words of the programs, `nfsd_options` and `nfsc_options`, and of `networks`.
#![tactic(auto)]

#[cfg(test)]
mod networks_tests;
#[cfg(test)]
mod nfsc;
#[cfg(test)]
mod nfsd;
