//! Tests of the tree and of its permissions: `node_tree`, `access_rows`, `access_guard` and `trail_keeper`.
#![tactic(auto)]

#[cfg(test)]
mod guard;
#[cfg(test)]
mod rows;
#[cfg(test)]
mod trail;
#[cfg(test)]
mod tree;
