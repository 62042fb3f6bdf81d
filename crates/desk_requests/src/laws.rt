//! Laws of what is asked.

ghost use Rattle.std.specs.Prelude.{◌≡◌, ◌≤◌, Result, IfOk, length, take};
ghost use Rattle.desk_requests.specs.Head.{feeds, framed};
ghost use Rattle.desk_requests.specs.Asks.{AskForOne, Asks};

use crate::heads::{framed_at, head_len};
use crate::parsing::{MOST_FIELDS, parsed};
use crate::{Asked, HttpRefusal};
use httparse::spans::EMPTY_HEADER_SPAN;

/// A conversation asks for at most one thing.
pub fn law_of_one_request()
    ensures { AskForOne }
{}

fn framed(input: &[u8]) -> Result<usize, HttpRefusal>
    ensures frame { result ≡ framed input.now }
    ensures within { IfOk result (λ n. n ≤ length input.now) }
    ensures lines { IfOk result (λ n. feeds (take n input.now) ≤ 34) }
{
    let most = input.len().min(16384);
    framed_at(input, head_len(&input[..most]))
}

/// Each conversation asks for something, or has a refusal.
pub fn law_of_requests(input: &[u8])
    ensures { (a : Result Asked HttpRefusal) × Asks input.now a }
{
    if let Ok(len) = framed(input) {
        let mut headers = [EMPTY_HEADER_SPAN; MOST_FIELDS];
        let _found = parsed(&input[..len], &mut headers);
    }
}
