//! A text cut at a byte.

ghost use Rattle.std.specs.Prelude.{◌≡◌, ◌<◌, ◌==◌, ◌∷◌, [], MatchOption, length};
ghost use Rattle.std.specs.List.{position_or_len};
ghost use Rattle.net_types.specs.Cut.{parts};

/// The text before the first such byte and the text behind it, or none where there is no such byte.
pub fn cut(text: &[u8], byte: u8) -> Option<(&[u8], &[u8])>
    ensures parts { MatchOption result (parts byte text.now ≡ text.now ∷ []) (λ p. parts byte text.now ≡ p.0.now ∷ parts byte p.1.now) }
    ensures shorter { MatchOption result (parts byte text.now ≡ text.now ∷ []) (λ p. length p.1.now < length text.now) }
{
    let at = place_of(text, byte);
    if at < text.len() {
        Some((&text[..at], &text[at + 1..]))
    } else {
        None
    }
}

// The place of the first such byte, or the length.
fn place_of(text: &[u8], byte: u8) -> usize
    ensures value { result ≡ position_or_len (λ b. b == byte) text.now }
{
    text.iter().take_while(|b| **b != byte).count()
}
