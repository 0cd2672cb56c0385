//! Tests of `log_entries`: entries as bytes that are counted by hand, and bytes that are no entries.
#![tactic(auto)]

#[cfg(test)]
mod checksums;
#[cfg(test)]
mod refused;
#[cfg(test)]
mod samples;
#[cfg(test)]
mod spelled;
