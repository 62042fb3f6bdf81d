//! The words of a line.

use crate::asserting::holds_at;
use frr_policy::words;

// Whether the word is this one; no word is as an empty one.
fn is(word: Option<&[u8]>, wanted: &str) -> bool {
    match word {
        Some(word) => word == wanted.as_bytes(),
        None => wanted.is_empty(),
    }
}

static LINES: [(&str, &str, &str, &str); 6] = [
    ("", "", "", ""),
    (" \t ", "", "", ""),
    ("exit", "exit", "", ""),
    (" \tmatch\tcommunity  C ", "match", "community", "C"),
    ("a b!c ", "a", "b!c", ""),
    ("a\rb c\u{b}d e\u{a0}f", "a\rb", "c\u{b}d", "e\u{a0}f"),
];

#[test]
fn words_stand_between_blanks(rt: HostRuntime) {
    for (line, first, second, third) in &LINES {
        let mut left = words(line.as_bytes());
        holds_at(&rt, line, is(left.next(), first));
        holds_at(&rt, line, is(left.next(), second));
        holds_at(&rt, line, is(left.next(), third));
        holds_at(&rt, line, is(left.next(), ""));
    }
}
