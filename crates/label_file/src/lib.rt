//! Reads the label file: which route each router of a network holds, of one prefix and with some links
//! failed.
//!
//! Decides: what the fields of a label are, which of its values the network has, and what a router without
//! a label holds. Whether the labels are stable, `concrete_algebra` decides.
//! Stands on: `net_types`, `toml_fields` and `toml`.
//! Promises: for each network and each file exactly its labels, or its first refusal (`specs/File.antt`);
//! labels that are read are of that network (`specs/Facts.antt`).
#![tactic(auto)]

mod communities;
mod contents;
mod laws;
mod links;
mod reading;
mod sources;
mod tables;
mod values;

pub use contents::Labels;
pub use laws::law_of_tables;
pub use reading::read_labels;
