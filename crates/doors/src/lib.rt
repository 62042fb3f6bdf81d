//! Doors: conversations come through them, one after the other.
//!
//! Decides: what is known of every door, how bytes are read from one and given to it, and what the one in
//! memory answers. A door counts its faults, and may tell what it was given and what is still to come.
//! Stands on: `net_types` and `outside`.
//! Promises: a call fails only where the count of faults rose in it, what is told is so, and a door in memory
//! answers exactly. Not: what a real door passes on.
#![tactic(auto)]

mod door;
mod mem_door;
mod mem_talk;
mod reading;

pub use door::{Door, give_all};
pub use mem_door::MemDoor;
pub use mem_talk::{MemTalk, Waiting};
pub use reading::{Stop, read_to, take_more};
