//! Words, and the numbers in them.

ghost use Rattle.std.specs.Prelude.{◌≡◌, ◌≤◌, IfSome, codes};
ghost use Rattle.clap.specs.Words.{first_value, found_of};
ghost use Rattle.command_words.specs.Commands.{AreColumns, AreWorkers, columns_of, is_path, workers_of};
ghost use Rattle.command_words.specs.Given.{workers_in};
ghost use Rattle.command_words.specs.Serving.{count_of, port_of};

use clap::ArgMatches;
use net_types::{Text, read_number};

/// Whether a word may stand behind the first: it has a byte, and does not begin with `-`.
pub fn is_path(word: &Text) -> bool
    ensures { result ≡ is_path word.now }
{
    match word.as_bytes() {
        [] => false,
        [first, ..] => *first != b'-',
    }
}

// A count of workers: one digit, 1 to 8.
#[tactic(auto, using(crate::proofs::WordLemmas::number_within))]
fn workers_of(word: &str) -> Option<u8>
    ensures value { result ≡ workers_of word.now }
    ensures range { IfSome result AreWorkers }
{
    match read_number(word.as_bytes(), 1, 8) {
        Some(workers) => Some(workers as u8),
        None => None,
    }
}

/// How many workers a line says; one where it says nothing of them.
pub fn workers_in(given: &ArgMatches<'_>) -> Option<u8>
    ensures value { result ≡ workers_in (first_value (found_of given.now) (codes "WORKERS")) }
    ensures range { IfSome result AreWorkers }
{
    match given.get_str("WORKERS") {
        Some(word) => workers_of(word),
        None => Some(1),
    }
}

/// The number of columns of a ladder: odd, 3 to 21.
#[tactic(auto, using(crate::proofs::WordLemmas::number_within))]
pub fn columns_of(word: &str) -> Option<u8>
    ensures value { result ≡ columns_of word.now }
    ensures range { IfSome result AreColumns }
{
    match read_number(word.as_bytes(), 3, 21) {
        Some(columns) if columns % 2 == 1 => Some(columns as u8),
        _ => None,
    }
}

/// A port: 1 to 65535.
#[tactic(auto, using(crate::proofs::WordLemmas::number_within))]
pub fn port_of(word: &str) -> Option<u16>
    ensures { result ≡ port_of word.now }
{
    match read_number(word.as_bytes(), 1, 65535) {
        Some(port) => Some(port as u16),
        None => None,
    }
}

/// A number of conversations: 1 to 1,000,000.
#[tactic(auto, using(crate::proofs::WordLemmas::number_within))]
pub fn count_of(word: &str) -> Option<u32>
    ensures { result ≡ count_of word.now }
{
    match read_number(word.as_bytes(), 1, 1_000_000) {
        Some(count) => Some(count as u32),
        None => None,
    }
}
