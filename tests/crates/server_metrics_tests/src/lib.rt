//! Tests of `server_metrics`: the text of a server, in the form that Prometheus reads; samples that are read, also in
//! texts that are cut or wrong; and allocations that fail.
#![tactic(auto)]

#[cfg(test)]
mod expected;
#[cfg(test)]
mod exposition;
#[cfg(test)]
mod reading;
#[cfg(test)]
mod sample;
#[cfg(test)]
mod writing;
