//! The texts of refusals: why a bundle of configurations, or a TOML file, is refused, in words.
//!
//! Decides: the words of each cause, with its place, its number, or the names of its files.
//! Stands on: `net_types`.
//! Promises: each text is the one of `specs/Texts.antt`. Not: where it is written, nor that the refusal is right.
#![tactic(auto)]

mod texts;

pub use texts::{bundle_text, form_text};
