//! Tests of a tree in parts: `Restoring` of `node_tree`, and `tree_parts`.
#![tactic(auto)]

#[cfg(test)]
mod long;
#[cfg(test)]
mod restored;
#[cfg(test)]
mod written;
