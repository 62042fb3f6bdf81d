//! The door of the machine: conversations over TCP, on the loopback.
//!
//! Decides: where the door stands, how long a client is waited for, how a conversation ends, and what counts as a
//! fault. What is said through a door, others decide.
//! Stands on: `outside` and `doors`. It waits for clients, and for each of them at most so long as is said here.
//! Promises: it is safe, and a call fails only where the count of faults rose in it. Not: which bytes come and go;
//! that is tested.
#![tactic(auto)]

mod closing;
mod loopback;

pub use loopback::TcpDoor;
