//! How the program ends.

ghost use Rattle.std.specs.Prelude.{◌≡◌, ◌≤◌};

use std::marker::Model;

/// An exit status, 0 to 8. Contracts see the number.
///
/// 0: all verdicts of the new side are certified, or the labelling is stable. 1: one is not, or it is not.
/// 2: a path is not there, or an input is refused. 3: the words are no command. 4: a call of the shelf failed.
/// 5: a call of the sink failed. 6: the keeper of the review desk failed when it was opened or loaded. 7: the door
/// failed when it was opened or a conversation was to begin. 8: there was no memory.
#[derive(Clone, Copy, PartialEq, Eq, Debug)]
pub struct Status(u8);

impl Model for Status {
    ghost use Rattle.std.specs.Prelude.{ℕ, ◌≤◌};

    ghost Value = { ℕ };

    ghost view = { λ s. s.0 };

    ghost invariant = { λ s. s.0 ≤ 8 };

    ghost inverse = { λ n. record { 0 = n } };
}

impl Status {
    /// The status of this number.
    pub fn new(code: u8) -> Status
        requires { code ≤ 8 }
        ensures { result ≡ code }
    {
        Status(code)
    }

    /// The number.
    pub fn code(self) -> u8
        ensures value { result ≡ self }
        ensures within { result ≤ 8 }
    {
        self.0
    }
}
