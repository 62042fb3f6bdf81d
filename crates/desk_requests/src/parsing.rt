//! Reads a head.

ghost use Rattle.std.specs.Prelude.{◌≡◌, ◌≤◌, ℕ, List, [], All, IfOk, IfSome, IsNone, map, take, length};
ghost use Rattle.httparse.specs.Grammar.{RequestHead, ReadsRequest};
ghost use Rattle.httparse.specs.Spans.{IsRequestWithin, IsRequestAt, header_bytes, span_bytes};
ghost use Rattle.desk_requests.specs.Head.{feeds};
ghost use Rattle.desk_requests.specs.Plans.{heard_from, Plans, IsSoundHeard};

use crate::plans::heard_from;
use crate::{Heard, HttpRefusal};
use httparse::Status;
use httparse::spans::{EMPTY_HEADER_SPAN, HeaderSpan, RequestSpans, parse_request};
use net_types::NoMemory;
use std::alloc::Global;

/// The most fields of a head.
pub const MOST_FIELDS: usize = 32;

/// The parts of the head that the bytes are as a whole.
pub fn parsed(head: &[u8], headers: &mut [HeaderSpan]) -> Option<RequestSpans>
    requires few { feeds head.now ≤ 34 }
    requires room { length headers.old ≡ 32 }
    ensures within { IfSome result (IsRequestWithin head.now headers.new) }
    ensures some { IfSome result (λ s. (h : RequestHead) × ReadsRequest head.now h [] × IsRequestAt head.now headers.new s h) }
    ensures none { IsNone result → (h : RequestHead) → ReadsRequest head.now h [] → ⊥ }
{
    match parse_request(head, headers) {
        Ok(Status::Complete(spans)) => {
            if spans.len == head.len() {
                Some(spans)
            } else {
                None
            }
        }
        _ => None,
    }
}

fn heard_at(
    alloc: Global,
    head: &[u8],
    spans: RequestSpans,
    headers: &[HeaderSpan],
) -> Result<Result<Heard, HttpRefusal>, NoMemory>
    requires { IsRequestWithin head.now headers.now spans }
    ensures sound { IfOk result (λ r. IfOk r IsSoundHeard) }
    ensures heard { IfOk result (λ r. r ≡ heard_from (span_bytes head.now spans.method) (span_bytes head.now spans.path) (map (header_bytes head.now) (take spans.headers headers.now))) }
{
    heard_from(
        alloc,
        spans.method.of(head),
        spans.path.of(head),
        head,
        &headers[..spans.headers],
    )
}

/// What a head says.
pub fn heard(alloc: Global, head: &[u8]) -> Result<Result<Heard, HttpRefusal>, NoMemory>
    requires { feeds head.now ≤ 34 }
    ensures sound { IfOk result (λ r. IfOk r IsSoundHeard) }
    ensures heard { IfOk result (Plans head.now) }
{
    let mut headers = [EMPTY_HEADER_SPAN; MOST_FIELDS];
    match parsed(head, &mut headers) {
        Some(spans) => heard_at(alloc, head, spans, &headers),
        None => Ok(Err(HttpRefusal::BadRequest)),
    }
}
