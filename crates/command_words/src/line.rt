//! The line of words that is handed to `clap`.

ghost use Rattle.std.specs.Prelude.{◌≡◌, IfOk, map};
ghost use Rattle.command_words.specs.Line.{line_of};

use net_types::{NoMemory, Text};
use std::alloc::Global;

/// The line of these words: `--` stands behind the first, so that `clap` takes no other word for an option.
///
/// # Errors
/// `NoMemory` alone.
pub fn line_of<'a>(alloc: Global, words: &'a [Text]) -> Result<Vec<&'a str>, NoMemory>
    ensures { IfOk result (λ line. map (λ s. s.now) line.items ≡ line_of words.now) }
{
    let mut line = Vec::new(alloc);
    let [word, others @ ..] = words else {
        return Ok(line);
    };
    line.push(word.as_str())?;
    line.push("--")?;
    for other in others {
        line.push(other.as_str())?;
    }
    Ok(line)
}
