//! What a command answers.

use net_types::Text;

/// The answer to a command that was read.
#[derive(Drop)]
pub struct Answer {
    /// The text, each of its lines with its end.
    pub text: Text,
    /// Whether it is good: every verdict of the new side is a certificate, or the labelling is stable.
    pub good: bool,
}
