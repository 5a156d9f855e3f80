//! A word of the command line.
ghost use Rattle.std.specs.Prelude.{◌≡◌, string_bytes};

use std::marker::Model;

/// A file name or a text that an option was given. A contract sees it as its bytes.
#[derive(Clone, Debug, Drop)]
pub struct Word {
    text: String,
}

impl Model for Word {
    ghost use Rattle.std.specs.Prelude.{ℕ, List, string_bytes};

    ghost Value = { List ℕ };

    ghost view = { λ word. string_bytes word.text };
}

impl Word {
    /// The word of this text.
    pub fn of(text: String) -> Word
        ensures { result ≡ string_bytes text }
    {
        Word { text }
    }

    /// Its text.
    pub fn text(&self) -> &String
        ensures { string_bytes result.now ≡ self.now }
    {
        &self.text
    }
}
