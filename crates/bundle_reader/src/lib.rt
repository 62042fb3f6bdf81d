//! The network of the files of a folder, or their first refusal.
//!
//! Decides: how many files and bytes a folder may have, which file is refused first, and that a network is
//! refused only where each file says something.
//! Stands on: `frr_reader` for what one file says, `topology` for the network of configurations.
//! Promises: the answer is the one of `specs/Bundle.antt`, and meets the relations of `specs/Files.antt`.
//! Not: which files a folder has, nor the text of a refusal.
#![tactic(auto)]

mod bundles;

pub use bundles::read_bundle;
