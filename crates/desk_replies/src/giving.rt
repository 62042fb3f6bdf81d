//! Gives replies.

ghost use Rattle.std.specs.Prelude.{◌≡◌, ◌≤◌, ◌++◌, Some};
ghost use Rattle.http.specs.StatusCode.{IsStatusCode};
ghost use Rattle.outside.specs.Sink.{HasCause};
ghost use Rattle.doors.specs.Door.{Told, GivesAll};
ghost use Rattle.desk_replies.specs.Replies.{phrase, status_line, kind_line, content, reply_text};

use doors::{Door, give_all};
use http::StatusCode;
use itoa::Buffer;
use outside::Failed;

/// What the body of a reply is.
#[derive(Clone, Copy, PartialEq, Eq, Debug)]
pub enum Media {
    /// `application/json`.
    Json,
    /// `text/plain`.
    Plain,
}

fn phrase(code: u16) -> &'static str
    requires { IsStatusCode code }
    ensures { result.now ≡ phrase code }
{
    match StatusCode::from_u16(code) {
        Ok(status) => match status.canonical_reason() {
            Some(text) => text,
            None => "",
        },
        Err(_) => "",
    }
}

fn kind_line(media: Media) -> &'static str
    ensures { result.now ≡ kind_line media }
{
    match media {
        Media::Json => "\r\ncontent-type: application/json\r\ncontent-length: ",
        Media::Plain => "\r\ncontent-type: text/plain\r\ncontent-length: ",
    }
}

fn give_two<D: Door>(door: &mut D, a: &[u8], b: &[u8]) -> Result<(), Failed>
    ensures kept { D.faults door.old ≤ D.faults door.new }
    ensures cause { HasCause (D.faults door.old) (D.faults door.new) result }
    ensures opened { D.is_open door.new ≡ D.is_open door.old }
    ensures told { (t : Told) → D.told door.old ≡ Some t → GivesAll t (a.now ++ b.now) result (D.told door.new) }
{
    match give_all(door, a) {
        Ok(()) => give_all(door, b),
        Err(e) => Err(e),
    }
}

fn give_four<D: Door>(door: &mut D, a: &[u8], b: &[u8], c: &[u8], d: &[u8]) -> Result<(), Failed>
    ensures kept { D.faults door.old ≤ D.faults door.new }
    ensures cause { HasCause (D.faults door.old) (D.faults door.new) result }
    ensures opened { D.is_open door.new ≡ D.is_open door.old }
    ensures told { (t : Told) → D.told door.old ≡ Some t → GivesAll t ((a.now ++ b.now) ++ (c.now ++ d.now)) result (D.told door.new) }
{
    match give_two(door, a, b) {
        Ok(()) => give_two(door, c, d),
        Err(e) => Err(e),
    }
}

fn give_status<D: Door>(door: &mut D, code: u16) -> Result<(), Failed>
    requires { IsStatusCode code }
    ensures kept { D.faults door.old ≤ D.faults door.new }
    ensures cause { HasCause (D.faults door.old) (D.faults door.new) result }
    ensures opened { D.is_open door.new ≡ D.is_open door.old }
    ensures told { (t : Told) → D.told door.old ≡ Some t → GivesAll t (status_line code) result (D.told door.new) }
{
    let mut buffer = Buffer::new();
    give_four(
        door,
        b"HTTP/1.1 ",
        buffer.format(code).as_bytes(),
        b" ",
        phrase(code).as_bytes(),
    )
}

fn give_content<D: Door>(door: &mut D, media: Media, body: &[u8]) -> Result<(), Failed>
    ensures kept { D.faults door.old ≤ D.faults door.new }
    ensures cause { HasCause (D.faults door.old) (D.faults door.new) result }
    ensures opened { D.is_open door.new ≡ D.is_open door.old }
    ensures told { (t : Told) → D.told door.old ≡ Some t → GivesAll t (content media body.now) result (D.told door.new) }
{
    let mut buffer = Buffer::new();
    give_four(
        door,
        kind_line(media).as_bytes(),
        buffer.format(body.len()).as_bytes(),
        b"\r\nconnection: close\r\n\r\n",
        body,
    )
}

/// Gives a whole reply.
///
/// # Errors
/// `Failed` where the door failed, only where its count of faults rose in this call. A beginning of the reply was
/// given then.
#[tactic(auto, unfolding(crate::specs::Replies::reply_text))]
pub fn give_reply<D: Door>(door: &mut D, code: u16, media: Media, body: &[u8]) -> Result<(), Failed>
    requires { IsStatusCode code }
    ensures kept { D.faults door.old ≤ D.faults door.new }
    ensures cause { HasCause (D.faults door.old) (D.faults door.new) result }
    ensures opened { D.is_open door.new ≡ D.is_open door.old }
    ensures told { (t : Told) → D.told door.old ≡ Some t → GivesAll t (reply_text code media body.now) result (D.told door.new) }
{
    match give_status(door, code) {
        Ok(()) => give_content(door, media, body),
        Err(e) => Err(e),
    }
}
