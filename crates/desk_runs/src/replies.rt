//! Replies in words.

use net_types::NoMemory;
use std::alloc::Global;

// The phrase of a code.
fn phrase(code: &str) -> &'static str {
    match code {
        "200" => "OK",
        "400" => "Bad Request",
        "401" => "Unauthorized",
        "403" => "Forbidden",
        "404" => "Not Found",
        "405" => "Method Not Allowed",
        "409" => "Conflict",
        "411" => "Length Required",
        "413" => "Payload Too Large",
        "422" => "Unprocessable Entity",
        "431" => "Request Header Fields Too Large",
        "501" => "Not Implemented",
        "503" => "Service Unavailable",
        _ => "",
    }
}

// A reply, byte by byte.
fn whole(alloc: Global, code: &str, kind: &str, body: &str) -> Result<String, NoMemory> {
    let phrase = phrase(code);
    let length = body.len();
    let first = format!(in alloc; "HTTP/1.1 {code} {phrase}\r\ncontent-type: {kind}\r\n")?;
    let first = first.as_str();
    let fields = format!(in alloc; "content-length: {length}\r\nconnection: close\r\n\r\n")?;
    let fields = fields.as_str();
    Ok(format!(in alloc; "{first}{fields}{body}")?)
}

// Bytes that are no whole reply, on one line.
fn part(alloc: Global, given: &str) -> Result<String, NoMemory> {
    if given.is_empty() {
        return Ok(String::from_str(alloc, "nothing")?);
    }
    let given = given.replace(alloc, '\r', "\\r")?;
    let given = given.as_str().replace(alloc, '\n', "\\n")?;
    let given = given.as_str();
    Ok(format!(in alloc; "only {given}")?)
}

// What may be code and body of a reply.
fn parts(given: &str) -> Option<(&str, &str)> {
    let (code, rest) = given.strip_prefix("HTTP/1.1 ")?.split_once(' ')?;
    let (_, body) = rest.split_once("\r\n\r\n")?;
    Some((code, body))
}

/// What was given to a conversation: code and body, where it is the whole reply with these, byte by byte, and its kind
/// between them where it is no JSON; else all of it.
pub fn reply_text(alloc: Global, given: &[u8]) -> Result<String, NoMemory> {
    let given = String::from_utf8_lossy(alloc, given)?;
    let given = given.as_str();
    let Some((code, body)) = parts(given) else {
        return part(alloc, given);
    };
    if whole(alloc, code, "application/json", body)?.as_str() == given {
        return Ok(format!(in alloc; "{code} {body}")?);
    }
    if whole(alloc, code, "text/plain", body)?.as_str() == given {
        return Ok(format!(in alloc; "{code} text/plain {body}")?);
    }
    part(alloc, given)
}
