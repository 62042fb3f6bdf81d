//! The generated bundle: a ladder of two rows of routers, and the book that is asked of it.
//!
//! Decides: the configuration files of a ladder with so many columns, and two properties of its farthest router.
//! Stands on: `net_types` for files, `property_book` for properties.
//! Promises: `generate` gives exactly the files of `specs/Files.antt`, `ladder_book` exactly the book of
//! `specs/Book.antt`. Not: that a reader takes the files.
#![tactic(auto)]

mod books;
mod files;
mod links;
mod names;
mod ports;

pub use books::ladder_book;
pub use files::generate;
