//! Tests of what the desk has of the machine: conversations through sockets, and tables in a database.
#![tactic(auto)]

#[cfg(test)]
mod asserting;
#[cfg(test)]
mod changes;
#[cfg(test)]
mod conversations;
#[cfg(test)]
mod keeping;
