//! Reads the head of a request.

ghost use Rattle.std.specs.Prelude.{◌≡◌, ◌≤◌, ◌<◌, ◌+◌, ℕ, Some, IfSome, IfOk, option_map, slice_index, take, drop, length, vec_len};
ghost use Rattle.doors.specs.Door.{Told};
ghost use Rattle.doors.specs.Stop.{HasReason};
ghost use Rattle.doors.specs.Reading.{IsRead};
ghost use Rattle.desk_requests.specs.Head.{blank_len, blank_behind, head_len, feeds, framed_at};
ghost use Rattle.desk_requests.specs.HeadEnd.{EndsHead, Frames};

use crate::HttpRefusal;
use doors::{Door, Stop, take_more};

// The most bytes of a head.
const MOST_BYTES: usize = 16384;

// The most line feeds of a head: those of the request line, of 32 fields and of the empty line.
const MOST_FEEDS: usize = 34;

fn blank_len(rest: &[u8]) -> Option<usize>
    ensures len { result ≡ blank_len rest.now }
    ensures within { IfSome result (λ n. n ≤ length rest.now) }
{
    match rest {
        [10, ..] => Some(1),
        [13, 10, ..] => Some(2),
        _ => None,
    }
}

fn blank_behind(bytes: &[u8], at: usize) -> Option<usize>
    requires { at < length bytes.now }
    ensures len { result ≡ blank_behind (slice_index bytes.now at) (drop (at + 1) bytes.now) }
    ensures within { IfSome result (λ n. at + 1 + n ≤ length bytes.now) }
{
    if bytes[at] == 10 {
        blank_len(&bytes[at + 1..])
    } else {
        None
    }
}

/// Where the head ends, where it is known that none ends to begin before `from`.
fn head_len_from(bytes: &[u8], from: usize) -> Option<usize>
    requires within { from ≤ length bytes.now }
    requires start { head_len bytes.now ≡ option_map (λ n. from + n) (head_len (drop from bytes.now)) }
    ensures len { result ≡ head_len bytes.now }
    ensures within { IfSome result (λ n. n ≤ length bytes.now) }
{
    let mut at = from;
    while at < bytes.len() {
        if let Some(n) = blank_behind(bytes, at) {
            return Some(at + 1 + n);
        }
        at += 1;
    }
    None
}

/// Where the head ends.
pub fn head_len(bytes: &[u8]) -> Option<usize>
    ensures len { result ≡ head_len bytes.now }
    ensures within { IfSome result (λ n. n ≤ length bytes.now) }
{
    head_len_from(bytes, 0)
}

fn feeds(bytes: &[u8]) -> usize
    ensures { result ≡ feeds bytes.now }
{
    bytes.iter().filter(|b| **b == 10).count()
}

/// Takes until the head's end is there, or the input ends, or no more may be read.
fn end_of_head<D: Door>(door: &mut D, bytes: &mut Vec<u8>) -> Result<Option<usize>, Stop>
    requires { vec_len bytes.old ≤ 16384 }
    ensures kept { D.faults door.old ≤ D.faults door.new }
    ensures cause { HasReason (D.faults door.old) (D.faults door.new) result }
    ensures opened { D.is_open door.new ≡ D.is_open door.old }
    ensures few { IfOk result (λ _. vec_len bytes.new ≤ 16384) }
    ensures within { IfOk result (λ end. IfSome end (λ n. n ≤ vec_len bytes.new)) }
    ensures told { (t : Told) → IsRead t bytes.old.items (D.told door.old) → EndsHead t result bytes.new.items (D.told door.new) }
{
    let mut from = 0;
    while bytes.len() < MOST_BYTES {
        if let Some(n) = head_len_from(bytes.as_slice(), from) {
            return Ok(Some(n));
        }
        from = bytes.len().saturating_sub(2);
        let left = MOST_BYTES - bytes.len();
        match take_more(door, bytes, left) {
            Ok(taken) => {
                if taken == 0 {
                    return Ok(None);
                }
            }
            Err(stop) => return Err(stop),
        }
    }
    Ok(head_len_from(bytes.as_slice(), from))
}

pub fn framed_at(bytes: &[u8], end: Option<usize>) -> Result<usize, HttpRefusal>
    requires { IfSome end (λ n. n ≤ length bytes.now) }
    ensures frame { result ≡ framed_at bytes.now end }
    ensures lines { IfOk result (λ n. feeds (take n bytes.now) ≤ 34) }
    ensures within { IfOk result (λ n. n ≤ length bytes.now) }
{
    match end {
        None => {
            if bytes.len() < MOST_BYTES {
                Err(HttpRefusal::BadRequest)
            } else {
                Err(HttpRefusal::HeadTooLarge)
            }
        }
        Some(n) => {
            if MOST_FEEDS < feeds(&bytes[..n]) {
                Err(HttpRefusal::HeadTooLarge)
            } else {
                Ok(n)
            }
        }
    }
}

/// Takes what is needed to know the head of the conversation.
pub fn read_head<D: Door>(
    door: &mut D,
    bytes: &mut Vec<u8>,
) -> Result<Result<usize, HttpRefusal>, Stop>
    requires { vec_len bytes.old ≤ 16384 }
    ensures kept { D.faults door.old ≤ D.faults door.new }
    ensures cause { HasReason (D.faults door.old) (D.faults door.new) result }
    ensures few { IfOk result (λ r. IfOk r (λ n. (n ≤ vec_len bytes.new) × (n ≤ 16384) × (feeds (take n bytes.new.items) ≤ 34))) }
    ensures opened { D.is_open door.new ≡ D.is_open door.old }
    ensures told { (t : Told) → IsRead t bytes.old.items (D.told door.old) → Frames t result bytes.new.items (D.told door.new) }
{
    match end_of_head(door, bytes) {
        Ok(end) => Ok(framed_at(bytes.as_slice(), end)),
        Err(stop) => Err(stop),
    }
}
