//! Tests beside the tables of `worked_runs`: texts, sets and files in memory and of the machine, walks through sets of
//! failed links, pairs of routes, rows, want of memory, and limits.
#![tactic(auto)]

#[cfg(test)]
mod asserting;
#[cfg(test)]
mod boards;
#[cfg(test)]
mod bundles;
#[cfg(test)]
mod failures;
#[cfg(test)]
mod fields;
#[cfg(test)]
mod folders;
#[cfg(test)]
mod maps;
#[cfg(test)]
mod memory;
#[cfg(test)]
mod networks;
#[cfg(test)]
mod orders;
#[cfg(test)]
mod refusals;
#[cfg(test)]
mod rows;
#[cfg(test)]
mod shelves;
#[cfg(test)]
mod texts;
#[cfg(test)]
mod turns;
#[cfg(test)]
mod words;
