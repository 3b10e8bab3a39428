//! Tests of calls of the libraries: that they succeed where there is memory enough, worked examples of what no clause
//! says, and reads, writes and a store that fail at a stated call or place; a server over links in memory: what other
//! links are told while an update is being built. Rows of cases that were worked out elsewhere stand in `table_tests`.
#![tactic(auto)]

#[cfg(test)]
mod builders;
#[cfg(test)]
mod categories;
#[cfg(test)]
mod identifiers;
#[cfg(test)]
mod json_texts;
#[cfg(test)]
mod log;
#[cfg(test)]
mod outside;
#[cfg(test)]
mod rows;
#[cfg(test)]
mod server;
#[cfg(test)]
mod sessions;
#[cfg(test)]
mod sharing;
#[cfg(test)]
mod stores;
#[cfg(test)]
mod tree;
