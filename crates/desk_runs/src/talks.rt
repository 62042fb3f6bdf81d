//! The bytes of a conversation of a case.

use crate::cases::Step;
use crate::words::{cut_number, cut_word};
use net_types::{List, NoMemory};
use std::alloc::Global;

fn add(bytes: &mut Vec<u8>, text: &str) -> Result<(), NoMemory> {
    Ok(bytes.extend_from_slice(text.as_bytes())?)
}

fn add_line(bytes: &mut Vec<u8>, text: &str) -> Result<(), NoMemory> {
    add(bytes, text)?;
    add(bytes, "\r\n")
}

// Adds the number of a body's bytes, the end of the head, and the body.
fn add_body(alloc: Global, bytes: &mut Vec<u8>, body: &str) -> Result<(), NoMemory> {
    let length = body.len();
    let field = format!(in alloc; "content-length: {length}")?;
    add_line(bytes, field.as_str())?;
    add_line(bytes, "")?;
    add(bytes, body)
}

// Adds a field, if it has a value.
fn add_field(alloc: Global, bytes: &mut Vec<u8>, name: &str, value: &str) -> Result<(), NoMemory> {
    if value == "-" {
        return Ok(());
    }
    let field = format!(in alloc; "{name}: {value}")?;
    add_line(bytes, field.as_str())
}

// Adds a request: method, target, token, key, and a body, if there is one.
fn add_request(alloc: Global, bytes: &mut Vec<u8>, words: &str) -> Result<(), NoMemory> {
    let (method, words) = cut_word(words);
    let (target, words) = cut_word(words);
    let (token, words) = cut_word(words);
    let (key, body) = cut_word(words);
    let line = format!(in alloc; "{method} {target} HTTP/1.1")?;
    add_line(bytes, line.as_str())?;
    add_field(alloc, bytes, "x-desk-token", token)?;
    add_field(alloc, bytes, "x-desk-key", key)?;
    if body.is_empty() {
        return add_line(bytes, "");
    }
    add_body(alloc, bytes, body)
}

fn add_byte(bytes: &mut Vec<u8>, number: &str) -> Result<bool, NoMemory> {
    match number.parse::<u8>() {
        Ok(byte) => {
            bytes.push(byte)?;
            Ok(true)
        }
        Err(_) => Ok(false),
    }
}

// Adds what a line says; answers whether it is one of a conversation.
fn add_once(alloc: Global, bytes: &mut Vec<u8>, line: &str) -> Result<bool, NoMemory> {
    match cut_word(line) {
        (":", text) => add_line(bytes, text)?,
        (".", text) => add(bytes, text)?,
        (":=", body) => add_body(alloc, bytes, body)?,
        ("byte", number) => return add_byte(bytes, number),
        _ => return Ok(false),
    }
    Ok(true)
}

// Adds so many times what a line says.
fn add_times(alloc: Global, bytes: &mut Vec<u8>, count: u64, line: &str) -> Result<bool, NoMemory> {
    for _ in 0..count {
        if !add_once(alloc, bytes, line)? {
            return Ok(false);
        }
    }
    Ok(true)
}

fn add_words(alloc: Global, bytes: &mut Vec<u8>, line: &str) -> Result<bool, NoMemory> {
    match cut_word(line) {
        ("times", rest) => match cut_number(rest) {
            Some((count, line)) => add_times(alloc, bytes, count, line),
            None => Ok(false),
        },
        _ => add_once(alloc, bytes, line),
    }
}

/// Whether a step is a conversation.
pub fn is_talk(step: &Step) -> bool {
    let (word, _) = cut_word(step.asked.as_str());
    word == "!" || word == "*"
}

// The bytes of a conversation, if each of its lines is one of a conversation.
fn input_of(alloc: Global, step: &Step) -> Result<Option<List<u8>>, NoMemory> {
    let mut bytes = Vec::new(alloc);
    if let ("!", words) = cut_word(step.asked.as_str()) {
        add_request(alloc, &mut bytes, words)?;
    }
    for line in &step.lines {
        if !add_words(alloc, &mut bytes, line.as_str())? {
            return Ok(None);
        }
    }
    Ok(Some(List::from_vec(bytes)))
}

/// The bytes of each conversation of a case, in order, if all are understood.
pub fn inputs_of(alloc: Global, steps: &[Step]) -> Result<Option<List<List<u8>>>, NoMemory> {
    let mut inputs = Vec::new(alloc);
    for step in steps {
        if is_talk(step) {
            match input_of(alloc, step)? {
                Some(input) => inputs.push(input)?,
                None => return Ok(None),
            }
        }
    }
    Ok(Some(List::from_vec(inputs)))
}
